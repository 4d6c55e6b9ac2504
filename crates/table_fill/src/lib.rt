// The entries of a table, by positions and sources: what an index says, which word that is, and its bits at the data lines'
// positions. What an index says is kept while it rises by one. Entries are written in rows of 256: what the bits above the low eight say
// is the same for all of a row, so that a row in which one chip is picked is known to stand in it, or to be pads, before it is begun.
#![tactic(auto)]

mod wiring; // positions of the lines, and what an index says by them
mod sources; // where the words of a chip stand
mod scramble; // a word's bits at the data lines' positions
mod row; // the entries of a row
mod table; // the rows in order

pub use crate::sources::Source;
pub use crate::table::fill_by;
pub use crate::wiring::Wiring;
