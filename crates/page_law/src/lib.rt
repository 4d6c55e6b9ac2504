// What the pin page shows, over the definitions alone: of each GPIO the first role that it has, and a hyphen just where it has none.
// No code: the theorems stand in specs/ and proofs/.
#![tactic(auto)]
