// The law of the description record: every description in the domain has bytes, and what bytes describe is what its type says.
#![tactic(auto)]
