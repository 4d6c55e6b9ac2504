// What the byte order of a dump changes and what it does not, over the definitions alone: which byte is which, and high byte first beside
// low byte first. No code: the theorems stand in specs/ and proofs/.
#![tactic(auto)]
