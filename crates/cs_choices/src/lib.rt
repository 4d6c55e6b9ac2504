// The choices of the select and data search: the best of them, and why none fits.
#![tactic(auto)]

pub mod choices; // the choices, and the best of them
pub mod nothing; // why nothing fits
