// The round trip: what a well wired slot that both searches and the build accept reads back as is what its chips hold, byte for byte.
// specs/ states it, proofs/ proves it over the definitions of all four calls; it has no code.
#![tactic(auto)]
