// What a table is filled by, found once: the positions of all lines, and where the words of the chips stand.
#![tactic(auto)]

pub mod wiring; // positions of all lines
pub mod sources; // where the words of the chips stand
