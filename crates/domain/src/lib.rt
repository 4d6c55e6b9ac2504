// Document 01's domain: which descriptions a call takes at all. Number 1 comes first everywhere.
#![tactic(auto)]

pub mod chip; // a chip's pins, lines and size
pub mod description; // a whole description
pub mod qualifiers; // the qualifier list, where an address layout is given
