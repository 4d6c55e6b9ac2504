// What the calls of the C interface answer, for a caller that has no enums: specs/ has each call, and the one number that it returns.
#![tactic(auto)]

pub mod order; // a byte order by its number
pub mod refused; // an answer as one number
