// The slot as it is stored: what read-back is given, and what may be wrong with it.
#![tactic(auto)]

pub mod stored; // the slot by value
pub mod in_domain; // number 1
pub mod window; // its windows, and what is wrong with its algorithms
pub mod roms; // the ROMs' maps
pub mod lines; // the lines that pick a ROM
