// The laws of the select and data search: demand 2, that the layout found is the best, why none fits, and what a found layout keeps.
#![tactic(auto)]
