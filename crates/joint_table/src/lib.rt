// Document 01's bench cases: specs/ has the joint table of those marked P, and proofs/ that the definitions answer as it says.
#![tactic(auto)]
