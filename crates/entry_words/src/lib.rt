// What the entries of a table are read by: positions of all lines, the words of each ROM among all, and the forced bits.
#![tactic(auto)]

ghost use Rattle.std.specs.Prelude.{◌≡◌, ◌*◌, ◌^◌, ◌≤◌};
ghost use Rattle.lists.specs.Tab.{tab};
ghost use Rattle.entry_words.specs.Design.Reading.{gathered};

use byte_tables::gather_table;

// The positions of so many lines, lowest line first.
#[derive(Clone, Copy)]
pub struct Map {
    pub positions: [u8; 32],
    pub lines: u8,
}

// The words of a ROM, counted through all.
#[derive(Clone, Copy)]
pub struct Extent {
    pub start: u32,
    pub words: u32,
}

// At four places the ROMs; at the fifth no ROM, which has no words.
#[derive(Clone, Copy)]
pub struct Reading {
    // The address lines' positions in the index; at the fifth place those of the lines that pick.
    pub address: [Map; 5],
    // The data lines' positions in the entry.
    pub data_lines: [Map; 5],
    // The place that the bits of the picking lines pick.
    pub roms: [u8; 8],
    pub extents: [Extent; 5],
    // The index bits that are forced, and those of them that are high.
    pub forced: u32,
    pub forced_high: u32,
    pub word_bytes: u8,
    // Words of all ROMs.
    pub words: u32,
}

// What all entries come to; the word that one is at fault for is counted through all ROMs. Three cases, two of them with a word: neither
// an Option nor a Result has them.
#[derive(Clone, Copy)]
pub enum Outcome {
    Whole,
    Disagrees(u32),
    Missing(u32),
}

// What a map says of each byte, where it stands so many bits up.
pub fn byte_table(map: Map, up: u32) -> [u32; 256]
    requires { (map.lines ≤ 32) × (up ≤ 8) }
    ensures { result ≡ tab 256 (λ q. gathered map (q * 2 ^ up)) }
{
    let positions = map.positions;
    gather_table(&positions, map.lines as usize, up)
}
