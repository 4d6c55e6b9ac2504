// What Intel HEX texts come to, over the definitions alone: which line is the first at fault, which record says a byte, and that a chip
// comes back through its own text. No code: the theorems stand in specs/ and proofs/.
#![tactic(auto)]
