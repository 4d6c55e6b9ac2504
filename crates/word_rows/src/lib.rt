// Rows of words: the entries of a row differ in the low eight bits of their order alone, so that a table tells the indices apart. Words
// of one byte and of two have a loop each, made of one function: a width that is known costs no loop.
#![tactic(auto)]

ghost use Rattle.std.specs.Prelude.{◌≡◌, true, ◌⊎◌, ◌<◌, ◌^◌, length};
ghost use Rattle.word_rows.specs.Design.Wrote.{RowIn, SameRow, Wrote, row_says, said_by};

use words::{put_word, word_at};

// Stored entries, and the tables that read them: the index bits that the low eight bits of an order set, and what the low and the high
// byte of an entry say.
#[derive(Clone, Copy)]
pub struct StoredEntries<'a> {
    pub stored: &'a [u8],
    pub lows: &'a [u32],
    pub low_bytes: &'a [u32],
    pub high_bytes: &'a [u32],
}

// What an entry says, by the tables of its bytes.
pub fn said(low_bytes: &[u32], high_bytes: &[u32], entry: u32) -> u32
    requires { (entry < 2 ^ 16) × (length low_bytes.now ≡ 256) × (length high_bytes.now ≡ 256) }
    ensures { result ≡ said_by low_bytes.now high_bytes.now entry }
{
    let low = (entry % 256) as usize;
    let high = (entry / 256) as usize;
    low_bytes[low] | high_bytes[high]
}

// Writes the words of a row, of W bytes each.
fn write_row_of<const W: usize>(
    entries: StoredEntries,
    from: u32,
    output: &mut [u8],
    at: usize,
    count: usize,
)
    requires { ((W ≡ 1) ⊎ (W ≡ 2)) × RowIn W entries.lows.now entries.low_bytes.now entries.high_bytes.now from entries.stored.now output.old at count }
    ensures { Wrote W (row_says W entries.entry.lows.now entries.entry.low_bytes.now entries.entry.high_bytes.now entries.entry.stored.now from)
        at count output.old output.new }
{
    let StoredEntries {
        stored,
        lows,
        low_bytes,
        high_bytes,
    } = entries;
    for q in 0..count {
        let i = (from | lows[q]) as usize;
        let value = said(low_bytes, high_bytes, word_at(stored, i * W, W));
        put_word(output, (at + q) * W, W, value);
    }
}

// Writes the words of a row as its entries say them.
pub fn write_row(
    entries: StoredEntries,
    from: u32,
    output: &mut [u8],
    at: usize,
    count: usize,
    w: usize,
)
    requires { ((w ≡ 1) ⊎ (w ≡ 2)) × RowIn w entries.lows.now entries.low_bytes.now entries.high_bytes.now from entries.stored.now output.old at count }
    ensures { Wrote w (row_says w entries.entry.lows.now entries.entry.low_bytes.now entries.entry.high_bytes.now entries.entry.stored.now from)
        at count output.old output.new }
{
    if w == 1 {
        write_row_of::<1>(entries, from, output, at, count);
    } else {
        write_row_of::<2>(entries, from, output, at, count);
    }
}

// Whether the words of a row, of W bytes each, are what its entries say.
fn same_row_of<const W: usize>(
    entries: StoredEntries,
    from: u32,
    output: &[u8],
    at: usize,
    count: usize,
) -> bool
    requires { ((W ≡ 1) ⊎ (W ≡ 2)) × RowIn W entries.lows.now entries.low_bytes.now entries.high_bytes.now from entries.stored.now output.now at count }
    ensures { result ≡ true → SameRow W entries.entry.lows.now entries.entry.low_bytes.now entries.entry.high_bytes.now from entries.entry.stored.now
        output.now at count }
{
    let StoredEntries {
        stored,
        lows,
        low_bytes,
        high_bytes,
    } = entries;
    let mut ok = true;
    for q in 0..count {
        let i = (from | lows[q]) as usize;
        let value = said(low_bytes, high_bytes, word_at(stored, i * W, W));
        ok = ok & (word_at(output, (at + q) * W, W) == value);
    }
    ok
}

// Whether the words of a row are what its entries say.
pub fn same_row(
    entries: StoredEntries,
    from: u32,
    output: &[u8],
    at: usize,
    count: usize,
    w: usize,
) -> bool
    requires { ((w ≡ 1) ⊎ (w ≡ 2)) × RowIn w entries.lows.now entries.low_bytes.now entries.high_bytes.now from entries.stored.now output.now at count }
    ensures { result ≡ true → SameRow w entries.entry.lows.now entries.entry.low_bytes.now entries.entry.high_bytes.now from entries.entry.stored.now
        output.now at count }
{
    if w == 1 {
        return same_row_of::<1>(entries, from, output, at, count);
    }
    same_row_of::<2>(entries, from, output, at, count)
}
