// A ROM's words, by turns: a turn has one entry for each word. The first is written, the others are held against it.
#![tactic(auto)]

ghost use Rattle.std.specs.Prelude.{◌≡◌, true, ℕ, ◌+◌, ◌≤◌, ◌<◌};
ghost use Rattle.word_rows.specs.Design.Wrote.{Wrote};
ghost use Rattle.rom_turns.specs.Design.Rom.{SameTurn, Turn, rom_index, says, turn_start};

use bits::scatter;
use word_rows::{StoredEntries, same_row, write_row};

// The numbers of a ROM.
#[derive(Clone, Copy)]
pub struct Rom {
    // So many lines are in order, of an index of so many bits.
    pub lines: u8,
    pub pins: u8,
    // The forced bits that are high.
    pub high: u32,
    // Where the first turn starts in the order, how far it is to the next, and how many there are.
    pub first: u32,
    pub span: u32,
    pub turns: u32,
    // Its words among all.
    pub start: u32,
    pub words: u32,
    pub word_bytes: u8,
}

// The index whose bits in order are e.
fn index_of(rom: Rom, positions: &[u8], e: u32) -> u32
    requires { (rom.lines ≤ 31) × (rom.pins ≤ 31) }
    ensures { result ≡ rom_index rom positions.now e }
{
    rom.high | scatter(positions, rom.lines as usize, rom.pins as u32, e)
}

// Writes the words as the entries of the turn from e on say them.
fn write_words(rom: Rom, e: u32, positions: &[u8], entries: StoredEntries, output: &mut [u8])
    requires { Turn rom positions.now entries.lows.now entries.low_bytes.now entries.high_bytes.now entries.stored.now output.old e }
    ensures { Wrote rom.word_bytes
        (λ a. says rom positions.now entries.entry.low_bytes.now entries.entry.high_bytes.now entries.entry.stored.now (e + a))
        rom.start rom.words output.old output.new }
{
    let w = rom.word_bytes as usize;
    for k in 0..rom.words.div_ceil(256) {
        let f = 256 * k;
        let count = u32::min(256, rom.words - f);
        let from = index_of(rom, positions, e + f);
        write_row(
            entries,
            from,
            output,
            (rom.start + f) as usize,
            count as usize,
            w,
        );
    }
}

// Whether the words are what the entries of the turn from e on say.
fn same_words(rom: Rom, e: u32, positions: &[u8], entries: StoredEntries, output: &[u8]) -> bool
    requires { Turn rom positions.now entries.lows.now entries.low_bytes.now entries.high_bytes.now entries.stored.now output.now e }
    ensures { result ≡ true → SameTurn rom
        (λ a. says rom positions.now entries.entry.low_bytes.now entries.entry.high_bytes.now entries.entry.stored.now (e + a))
        output.now rom.words }
{
    let w = rom.word_bytes as usize;
    let mut ok = true;
    for k in 0..rom.words.div_ceil(256) {
        let f = 256 * k;
        let count = u32::min(256, rom.words - f);
        let from = index_of(rom, positions, e + f);
        ok = ok
            & same_row(
                entries,
                from,
                output,
                (rom.start + f) as usize,
                count as usize,
                w,
            );
    }
    ok
}

// Whether the words are what the entries of all turns but the first say.
fn others_same(rom: Rom, positions: &[u8], entries: StoredEntries, output: &[u8]) -> bool
    requires { (c : ℕ) → c < rom.turns
        → Turn rom positions.now entries.lows.now entries.low_bytes.now entries.high_bytes.now entries.stored.now output.now (turn_start rom c) }
    ensures { result ≡ true → (c : ℕ) → 1 ≤ c → c < rom.turns → SameTurn rom
        (λ a. says rom positions.now entries.entry.low_bytes.now entries.entry.high_bytes.now entries.entry.stored.now (turn_start rom c + a))
        output.now rom.words }
{
    let mut ok = true;
    for c in 1..rom.turns {
        let e = c * rom.span + rom.first;
        ok = ok & same_words(rom, e, positions, entries, output);
    }
    ok
}

// Writes the words by the first turn. Whether the other turns say the same.
pub fn read_turns(rom: Rom, positions: &[u8], entries: StoredEntries, output: &mut [u8]) -> bool
    requires { (0 < rom.turns) × ((c : ℕ) → c < rom.turns
        → Turn rom positions.now entries.lows.now entries.low_bytes.now entries.high_bytes.now entries.stored.now output.old (turn_start rom c)) }
    ensures wrote { Wrote rom.word_bytes
        (λ a. says rom positions.now entries.entry.low_bytes.now entries.entry.high_bytes.now entries.entry.stored.now (rom.first + a))
        rom.start rom.words output.old output.new }
    ensures same_turn { result ≡ true → (c : ℕ) → 1 ≤ c → c < rom.turns → SameTurn rom
        (λ a. says rom positions.now entries.entry.low_bytes.now entries.entry.high_bytes.now entries.entry.stored.now (turn_start rom c + a))
        output.new rom.words }
{
    write_words(rom, rom.first, positions, entries, output);
    others_same(rom, positions, entries, output)
}
