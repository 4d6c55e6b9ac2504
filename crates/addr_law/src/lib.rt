// The laws of the address search: demand 2, that the layout found is the best, and what a found layout keeps.
#![tactic(auto)]
