// The laws of the package: on B every call given a description answers as it did before there was a package, on A it answers as on B, or
// by 1 where a candidate is above 29. No code: the theorems stand in specs/ and proofs/.
#![tactic(auto)]
