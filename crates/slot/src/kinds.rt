// The kinds of control lines, which have names in the original. Those up to `CS4` can be named by a Multi set.
pub const CE: u8 = 0;

pub const OE: u8 = 1;

pub const CS1: u8 = 2;

pub const CS2: u8 = 3;

pub const CS3: u8 = 4;

pub const CS4: u8 = 5;

pub const OTHER: u8 = 6;
