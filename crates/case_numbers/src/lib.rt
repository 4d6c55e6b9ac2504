// The numbers of a case and of an answer: read, written and compared. docs/CASES.md has the language.
#![tactic(auto)]

pub mod case; // the numbers of a case
pub mod answer; // the numbers of an answer: written, and compared
