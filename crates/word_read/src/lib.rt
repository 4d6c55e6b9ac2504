// Entries of a table back into words, word by word: where each word has entries of its own, the first of them gives it, and the
// others are held against it.
#![tactic(auto)]

ghost use Rattle.std.specs.Prelude.{◌≡◌, true, ℕ, ◌+◌, ◌*◌, ◌^◌, ◌≤◌, ◌<◌, get_or, drop};
ghost use Rattle.word_rows.specs.Design.Wrote.{Wrote};
ghost use Rattle.entry_words.specs.Design.Reading.{no_map};
ghost use Rattle.rom_turns.specs.Design.Rom.{SameTurn, turn_start};
ghost use Rattle.word_read.specs.Design.Ordered.{InOrder, lows_of, rom_value};
ghost use Rattle.word_read.specs.Design.Words.{AllRead, Entries, Next, ReadIn, WordsRead, words_of};

use byte_tables::scatter_table;
use entry_words::{Map, Reading, byte_table};
use index_order::order;
use rom_entries::{bits_for, rom_of, suits};
use rom_turns::{Rom, read_turns};
use word_rows::StoredEntries;

// Where the low bits of an order stand.
fn lows_of(rom: Rom, order: Map) -> [u32; 256]
    requires { (rom.lines ≤ 31) × (rom.pins ≤ 31) }
    ensures { result ≡ lows_of rom order.positions }
{
    let positions = order.positions;
    scatter_table(&positions, rom.lines as usize, rom.pins as u32, 0)
}

// Reads the words of a ROM whose entries are in order. Whether all entries agree.
fn read_ordered(rom: Rom, order: Map, data_map: Map, stored: &[u8], output: &mut [u8]) -> bool
    requires { InOrder rom order data_map stored.now output.old }
    ensures wrote { Wrote rom.word_bytes (λ a. rom_value rom order.positions data_map stored.now (rom.first + a))
        rom.start rom.words output.old output.new }
    ensures same_turn { result ≡ true → (c : ℕ) → 1 ≤ c → c < rom.turns → SameTurn rom
        (λ a. rom_value rom order.positions data_map stored.now (turn_start rom c + a))
        output.new rom.words }
{
    let lows = lows_of(rom, order);
    let low_bytes = byte_table(data_map, 0);
    let high_bytes = byte_table(data_map, 8);
    let positions = order.positions;
    let entries = StoredEntries {
        stored: stored,
        lows: &lows,
        low_bytes: &low_bytes,
        high_bytes: &high_bytes,
    };
    read_turns(rom, &positions, entries, output)
}

// Reads the words of a ROM, where they have entries of their own. Whether they have, and all these agree.
fn read_next(r: Reading, k: u8, m: u32, pins: u8, stored: &[u8], output: &mut [u8]) -> bool
    requires { Next r stored.now output.old pins k m × (0 < words_of r k) × ((get_or r.address k no_map).lines ≤ 28) }
    ensures output_unchanged { drop (r.words * r.word_bytes) output.new ≡ drop (r.words * r.word_bytes) output.old }
    ensures words_read { result ≡ true → WordsRead r stored.now (2 ^ pins) (k + 1) (m + words_of r k) output.old output.new }
{
    let address = r.address;
    let extents = r.extents;
    let data_lines = r.data_lines;
    let roms = r.roms;
    let map = address[k as usize];
    let picks = address[4];
    let extent = extents[k as usize];
    let ordered = order(map, picks, r.forced, pins);
    let b = bits_for(roms, 1u8 << picks.lines, k);
    if !suits(
        map,
        picks,
        ordered,
        extent,
        roms,
        k,
        b,
        m,
        r.forced,
        r.forced_high,
        pins,
    ) {
        return false;
    }
    let rom = rom_of(
        map,
        picks,
        ordered,
        b,
        extent,
        pins,
        r.forced_high,
        r.word_bytes,
    );
    read_ordered(rom, ordered, data_lines[k as usize], stored, output)
}

// Reads the words of a ROM, if it has any.
fn read_rom(r: Reading, k: u8, m: u32, pins: u8, stored: &[u8], output: &mut [u8]) -> bool
    requires { Next r stored.now output.old pins k m }
    ensures output_unchanged { drop (r.words * r.word_bytes) output.new ≡ drop (r.words * r.word_bytes) output.old }
    ensures words_read { result ≡ true → WordsRead r stored.now (2 ^ pins) (k + 1) (m + words_of r k) output.old output.new }
{
    let address = r.address;
    let extents = r.extents;
    let map = address[k as usize];
    let extent = extents[k as usize];
    if extent.words == 0 {
        return true;
    }
    if 28 < map.lines {
        return false;
    }
    read_next(r, k, m, pins, stored, output)
}

// Reads the words of all ROMs, one after the other.
fn read_roms(r: Reading, pins: u8, stored: &[u8], output: &mut [u8]) -> bool
    requires { ReadIn r stored.now output.old pins }
    ensures output_unchanged { drop (r.words * r.word_bytes) output.new ≡ drop (r.words * r.word_bytes) output.old }
    ensures all_read { result ≡ true → AllRead r stored.now (2 ^ pins) output.old output.new }
{
    let extents = r.extents;
    let mut m: u32 = 0;
    for k in 0u8..5 {
        if !read_rom(r, k, m, pins, stored, output) {
            return false;
        }
        m += extents[k as usize].words;
    }
    m == r.words
}

// Reads all words, where each has entries of its own. Whether it has, and all entries agree; if not, the words are open.
pub fn read_words(r: Reading, stored: &[u8], entries: u32, output: &mut [u8]) -> bool
    requires { Entries r stored.now output.old entries }
    ensures output_unchanged { drop (r.words * r.word_bytes) output.new ≡ drop (r.words * r.word_bytes) output.old }
    ensures all_read { result ≡ true → AllRead r stored.now entries output.old output.new }
{
    let pins = u32::trailing_zeros(entries);
    if (31 < pins) | (r.word_bytes == 0) {
        return false;
    }
    if entries != 1u32 << pins {
        return false;
    }
    read_roms(r, pins as u8, stored, output)
}
