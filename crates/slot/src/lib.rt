// One slot of a board: its description by value, and where a chip's pins come to lie in its socket.
#![tactic(auto)]

pub mod description; // board, chips and settings, as plain numbers
pub mod kinds; // the kinds of control lines
pub mod slot_context; // where a chip's pins come to lie in the board's socket
