// The entries of a row: those whose index has the same bits above the low eight. Each is for a word and says a value, and the first
// value of a word is kept. What the bits of an index and of an entry come to stands in tables, for each eight of them.
#![tactic(auto)]

mod word; // which word an entry is for

ghost use Rattle.std.specs.Prelude.{◌≡◌, ◌+◌, ◌*◌, ◌/◌, ◌%◌, ◌<◌, ◌^◌, length, get_or};
ghost use Rattle.entry_rows.specs.Design.Held.{OnwardRow, ReadBy};

use crate::word::{unforced, word_for};
use entry_words::Reading;
use lent_buffers::keep;
use words::word_at;

// A row: what the bits above the low eight say of its indices, the first of them, and how many there are.
#[derive(Clone, Copy)]
pub struct Row {
    pub high: [u32; 5],
    pub start: u32,
    pub count: u32,
}

// What an entry says of a word of a ROM, by the tables of its bytes.
fn said(low_bytes: &[u32], high_bytes: &[u32], rom: u8, entry: u32) -> u32
    requires rom_bound { (rom < 5) × (entry < 2 ^ 16) × (length low_bytes.now ≡ 1280) × (length high_bytes.now ≡ 1280) }
    requires bound { get_or low_bytes.now (rom * 256 + entry % 256) 0 + get_or high_bytes.now (rom * 256 + entry / 256) 0 < 2 ^ 32 }
    ensures { result ≡ get_or low_bytes.now (rom * 256 + entry % 256) 0
        + get_or high_bytes.now (rom * 256 + entry / 256) 0 }
{
    let place = rom as usize * 256;
    let low = place + (entry % 256) as usize;
    let high = place + (entry / 256) as usize;
    low_bytes[low] + high_bytes[high]
}

// Reads the entries of a row, of W bytes each, up to the first that disagrees: a width that is known costs no loop at an entry.
fn read_row_of<const W: usize>(
    r: Reading,
    row: Row,
    lows: &[u32],
    low_bytes: &[u32],
    high_bytes: &[u32],
    stored: &[u8],
    output: &mut [u8],
    marks: &mut [u8],
) -> Result<(), u32>
    requires width { W ≡ r.word_bytes }
    requires onward { OnwardRow r row lows.now low_bytes.now high_bytes.now stored.now output.old marks.old }
    ensures { ReadBy r stored.now (row.start + row.count)
        output.old marks.old result output.new marks.new }
{
    let roms = r.roms;
    let extents = r.extents;
    let high = row.high;
    for low in 0..row.count {
        let i = row.start + low;
        let rom = roms[(lows[1024 + low as usize] + high[4]) as usize];
        let address = lows[rom as usize * 256 + low as usize] + high[rom as usize];
        let counts = unforced(i, r.forced, r.forced_high);
        let f = word_for(extents[rom as usize], counts, address, r.words);
        if f < r.words {
            let entry = word_at(stored, i as usize * W, W);
            if !keep(output, marks, W, f, said(low_bytes, high_bytes, rom, entry)) {
                return Err(f);
            }
        }
    }
    Ok(())
}

// Reads the entries of a row up to the first that disagrees.
pub fn read_row(
    r: Reading,
    row: Row,
    lows: &[u32],
    low_bytes: &[u32],
    high_bytes: &[u32],
    stored: &[u8],
    output: &mut [u8],
    marks: &mut [u8],
) -> Result<(), u32>
    requires { OnwardRow r row lows.now low_bytes.now high_bytes.now stored.now output.old marks.old }
    ensures { ReadBy r stored.now (row.start + row.count)
        output.old marks.old result output.new marks.new }
{
    match r.word_bytes {
        1 => read_row_of::<1>(r, row, lows, low_bytes, high_bytes, stored, output, marks),
        2 => read_row_of::<2>(r, row, lows, low_bytes, high_bytes, stored, output, marks),
        _ => read_row_of::<0>(r, row, lows, low_bytes, high_bytes, stored, output, marks),
    }
}
