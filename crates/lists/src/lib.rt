// Arrays with a count beside them, and lists: what every crate needs of them, in specs/ and proofs/ too.
#![tactic(auto)]

pub mod array; // an array's entries
