// The premises of the round trip's theorem, and a test of each: a well wired slot, what read-back is given, and the room in the lent
// buffers. specs/ has both, proofs/ that a premise holds just where its test passes; the crates wired and given have the tests as code.
#![tactic(auto)]
