// The positions of the lines, and what an index says by them.

// All that an entry takes of the layouts.
#[derive(Clone, Copy)]
pub struct Wiring {
    // Address lines in use: positions in the index.
    pub address: [u8; 24],
    pub num_lines: u8,
    // Lines that pick a chip: positions in the index.
    pub picks: [u8; 3],
    pub num_picks: u8,
    // Data lines: positions in the entry.
    pub data_lines: [u8; 16],
    pub num_data: u8,
    pub word_bytes: u8,
}

// What an index says: the chip address, and the bits of the lines that pick. Both are kept from entry to entry.
#[derive(Clone, Copy)]
pub struct Part {
    pub address: u32,
    pub picks: u32,
}
