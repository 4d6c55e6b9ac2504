// Whether a ROM's words have entries of their own.
#![tactic(auto)]

ghost use Rattle.std.specs.Prelude.{◌≡◌, true, ◌+◌, ◌≤◌, ◌<◌, ◌^◌, eqb, get_or};
ghost use Rattle.lists.specs.First.{first_where};
ghost use Rattle.rom_entries.specs.Design.Suits.{Only, Suits, rom_of};

use entry_words::{Extent, Map};
use index_order::fits;
use lists::array::entry;
use rom_turns::Rom;

// The lowest value of the bits that pick, of n, that picks place k; n where none does, which `only` refuses.
pub fn bits_for(roms: [u8; 8], n: u8, k: u8) -> u8
    ensures { result ≡ first_where n (λ j. eqb (get_or roms j 0) k) }
{
    for j in 0..n {
        if entry(&roms, j as usize) == k {
            return j;
        }
    }
    n
}

// Whether that value picks it, and no other does.
fn only(roms: [u8; 8], n: u8, k: u8, b: u8) -> bool
    ensures { result ≡ true → Only roms n k b }
{
    let mut ok = (entry(&roms, b as usize) == k) & (b < n);
    for j in 0..n {
        ok = ok & ((entry(&roms, j as usize) != k) | (j == b));
    }
    ok
}

// Whether each bit of an index is an address line's, picks, is left or is forced, one value picks the ROM, and its words are next.
pub fn suits(
    map: Map,
    picks: Map,
    order: Map,
    extent: Extent,
    roms: [u8; 8],
    k: u8,
    b: u8,
    m: u32,
    forced: u32,
    high: u32,
    pins: u8,
) -> bool
    requires { (map.lines ≤ 28) × (picks.lines ≤ 3) × (pins ≤ 31) }
    ensures { result ≡ true → Suits map picks order extent roms k b m forced high pins }
{
    if 31 < order.lines {
        return false;
    }
    fits(order, forced, high, pins)
        & only(roms, 1u8 << picks.lines, k, b)
        & (extent.start == m)
        & (extent.words <= 1u32 << map.lines)
}

// The numbers of a ROM whose entries are in order.
pub fn rom_of(
    map: Map,
    picks: Map,
    order: Map,
    b: u8,
    extent: Extent,
    pins: u8,
    high: u32,
    w: u8,
) -> Rom
    requires lines_bound { (map.lines ≤ 28) × (picks.lines ≤ 3) × (order.lines ≤ 31) × (map.lines + picks.lines ≤ order.lines) }
    requires b_bound { b < 2 ^ picks.lines }
    ensures { result ≡ rom_of map picks order b extent pins high w }
{
    let both = picks.lines + map.lines;
    Rom {
        lines: order.lines,
        pins: pins,
        high: high,
        first: (b as u32) << map.lines,
        span: 1u32 << both,
        turns: 1u32 << (order.lines - both),
        start: extent.start,
        words: extent.words,
        word_bytes: w,
    }
}
