// Rows of a table: entries one behind the other, of words that stand in one chip, or of pads. A width that is written out in a call is
// known to the compiler, which then makes a loop of its own for it.
#![tactic(auto)]

ghost use Rattle.std.specs.Prelude.{◌≡◌, ◌+◌, ◌*◌, ◌≤◌, ◌<◌, ◌^◌, length, get_or};
ghost use Rattle.word_rows.specs.Design.Wrote.{Wrote, said_by};
ghost use Rattle.table_rows.specs.Design.Rows.{ByteTables, ChipRowIn, chip_entry};

use running_address::next_address;
use word_rows::said;
use words::{ByteOrder, chip_word_at, put_word};

// A row of words that stand in one chip.
#[derive(Clone, Copy)]
pub struct ChipRow {
    // The first index, how many there are, and the first one's address.
    pub first: u32,
    pub count: u32,
    pub address: u32,
    // Where the chip's words start, and the bits of an address that tell them apart.
    pub start: u32,
    pub mask: u32,
}

// The tables by which rows of words are written: the address lines that move with each bit of an index, and what the low and the high
// byte of a word come to.
#[derive(Clone, Copy)]
pub struct RowTables<'a> {
    pub moves: &'a [u32],
    pub lows: &'a [u32],
    pub highs: &'a [u32],
}

// What a word comes to, by the tables of its bytes. A word of one byte has nothing in the second.
pub fn scrambled(w: usize, lows: &[u32], highs: &[u32], word: u32) -> u32
    requires { (w ≤ 2) × (word < 2 ^ (8 * w)) × ByteTables lows.now highs.now }
    ensures { result ≡ said_by lows.now highs.now word }
{
    if w < 2 {
        return lows[word as usize];
    }
    said(lows, highs, word)
}

// Writes a row of words that stand in one chip, the address kept from entry to entry. The promise speaks of the lines' positions; the code
// looks at no line.
fn chip_row(
    order: ByteOrder,
    w: usize,
    row: ChipRow,
    lines: &[u8],
    n: usize,
    tables: RowTables,
    images: &[u8],
    table: &mut [u8],
)
    requires { ChipRowIn w row n (λ k. get_or lines.now k 0) tables.moves.now tables.lows.now tables.highs.now images.now table.old }
    ensures { Wrote w
        (chip_entry order w row n (λ k. get_or lines.now k 0) tables.entry.lows.now tables.entry.highs.now images.now)
        row.first row.count table.old table.new }
{
    let RowTables { moves, lows, highs } = tables;
    let mut address = row.address;
    for q in 0..row.count {
        let at = row.start as usize + (address & row.mask) as usize * w;
        let word = chip_word_at(order, images, at, w);
        let entry = scrambled(w, lows, highs, word);
        put_word(table, (row.first + q) as usize * w, w, entry);
        address = next_address(moves, address, row.first + q);
    }
}

// The same, with a loop of its own for each width.
pub fn write_words(
    order: ByteOrder,
    w: usize,
    row: ChipRow,
    lines: &[u8],
    n: usize,
    tables: RowTables,
    images: &[u8],
    table: &mut [u8],
)
    requires { ChipRowIn w row n (λ k. get_or lines.now k 0) tables.moves.now tables.lows.now tables.highs.now images.now table.old }
    ensures { Wrote w
        (chip_entry order w row n (λ k. get_or lines.now k 0) tables.entry.lows.now tables.entry.highs.now images.now)
        row.first row.count table.old table.new }
{
    if w == 1 {
        chip_row(order, 1, row, lines, n, tables, images, table);
    } else if w == 2 {
        chip_row(order, 2, row, lines, n, tables, images, table);
    } else {
        chip_row(order, w, row, lines, n, tables, images, table);
    }
}

// Writes the same entry to each place of a row.
fn pad_row(w: usize, entry: u32, first: u32, count: u32, table: &mut [u8])
    requires { (first + count < 2 ^ 32) × ((first + count) * w ≤ length table.old) }
    ensures { Wrote w (λ q. entry) first count table.old table.new }
{
    for q in 0..count {
        put_word(table, (first + q) as usize * w, w, entry);
    }
}

// The same, with a loop of its own for each width.
pub fn write_pads(w: usize, entry: u32, first: u32, count: u32, table: &mut [u8])
    requires { (first + count < 2 ^ 32) × ((first + count) * w ≤ length table.old) }
    ensures { Wrote w (λ q. entry) first count table.old table.new }
{
    if w == 1 {
        pad_row(1, entry, first, count, table);
    } else if w == 2 {
        pad_row(2, entry, first, count, table);
    } else {
        pad_row(w, entry, first, count, table);
    }
}
