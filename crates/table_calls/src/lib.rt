// Build and read-back for a caller that has no structs, from its records to the answer as one number.
#![tactic(auto)]

pub mod build; // the build
pub mod read_back; // read-back
