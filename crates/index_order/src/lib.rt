// The bits of an index in another order: first those that a ROM's address lines have, then those of the lines that pick, then those
// that are left. A word's entries are then those whose first bits are its address.
#![tactic(auto)]

ghost use Rattle.std.specs.Prelude.{◌≡◌, true, ◌≤◌, ◌<◌, get_or};
ghost use Rattle.index_order.specs.Design.Order.{Apart, Extends, Fits, Ordered, Pushed, at, mask_of};

use bits::{bit_at, scatter};
use entry_words::Map;
use lists::array::entry;

// One line more.
fn push(map: Map, p: u8) -> Map
    requires { map.lines < 32 }
    ensures { Pushed map p result }
{
    let lines = map.lines;
    let mut positions = map.positions;
    positions[lines as usize] = p;
    Map {
        positions: positions,
        lines: lines + 1,
    }
}

// A line more where it is free, and there is room.
fn push_free(map: Map, p: u8, free: bool) -> Map
    ensures { Extends map result }
{
    if free & (map.lines < 32) {
        return push(map, p);
    }
    map
}

// The lines that pick, behind those of a ROM.
fn with_picks(map: Map, picks: Map) -> Map
    requires { (map.lines ≤ 28) × (picks.lines ≤ 3) }
    ensures ordered { Ordered map picks result }
    ensures lines_bound { result.lines ≤ 31 }
{
    let positions = picks.positions;
    let n = picks.lines;
    let mut out = map;
    for k in 0..n {
        out = push(out, entry(&positions, k as usize));
    }
    out
}

// The bits that are left, behind the lines that there are.
fn with_free(map: Map, taken: u32, pins: u8) -> Map
    ensures { Extends map result }
{
    let mut out = map;
    for p in 0..pins {
        out = push_free(out, p, bit_at(taken, p) == 0);
    }
    out
}

// The bits that some lines have.
fn mask(map: Map, pins: u8) -> u32
    requires { (map.lines ≤ 31) × (pins ≤ 31) }
    ensures { result ≡ mask_of map.lines (at map) pins }
{
    let positions = map.positions;
    let lines = map.lines;
    let ones = (1u32 << lines) - 1;
    scatter(&positions, lines as usize, pins as u32, ones)
}

// The lines of a ROM, those that pick, and the bits that are left.
pub fn order(map: Map, picks: Map, forced: u32, pins: u8) -> Map
    requires { (map.lines ≤ 28) × (picks.lines ≤ 3) × (pins ≤ 31) }
    ensures { Ordered map picks result }
{
    let lines = with_picks(map, picks);
    with_free(lines, mask(lines, pins) | forced, pins)
}

// Whether no two lines have one position, and none is past the bits of an index.
fn apart(positions: &[u8], n: usize, pins: u8) -> bool
    requires { pins ≤ 31 }
    ensures { result ≡ true → Apart n (λ k. get_or positions.now k 0) pins }
{
    let mut ok = true;
    let mut seen: u32 = 0;
    for k in 0..n {
        let p = entry(positions, k);
        ok = ok & (p < pins) & (bit_at(seen, p) == 0);
        seen = seen | 1u32 << (p % 32);
    }
    ok
}

// Whether each bit of an index has one position, or is forced.
pub fn fits(map: Map, forced: u32, forced_high: u32, pins: u8) -> bool
    requires { (map.lines ≤ 31) × (pins ≤ 31) }
    ensures { result ≡ true → Fits map.lines (at map) forced forced_high pins }
{
    let positions = map.positions;
    let all = mask(map, pins);
    apart(&positions, map.lines as usize, pins)
        & ((all & forced) == 0)
        & ((all | forced) == (1u32 << pins) - 1)
        & ((forced_high & forced) == forced_high)
}
