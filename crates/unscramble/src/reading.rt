// What the entries are read by: positions of all lines, the words of each ROM among all, and the forced bits, found once a slot.
ghost use Rattle.std.specs.Prelude.{◌≡◌, ◌-◌, ◌^◌, ◌≤◌, cond, ltb, get_or};
ghost use Rattle.lists.specs.Tab.{tab};
ghost use Rattle.picks.specs.Picks.{picked_by};
ghost use Rattle.stored_slot.specs.Stored.{addr_base, stored_data_base, rom_at};
ghost use Rattle.stored_slot.specs.Words.{all_words, pick_gpio, stored_pick_position};
ghost use Rattle.unscramble.specs.Design.Reading.{Readable, read_map, pick_map, place_map, address_map, data_map, rom_place, extent_of, reading_of};

use dump_lines::high_first;
use entry_words::{Extent, Map, Reading};
use forced_bits::{forced, forced_high};
use picks::positions::{position, positions};
use picks::{num_picks, picked_by};
use rom_words::{rom_words, words_before};
use slot::description::ChipSetType;
use stored_slot::lines::pick_gpio;
use stored_slot::roms::{listed, rom_at};
use stored_slot::stored::StoredSlot;
use stored_slot::window::{addr_base, data_base, word_bytes};
use words::ByteOrder;

// A ROM's map from a base.
fn map_of(gpios: [u8; 32], base: u8) -> Map
    ensures { result ≡ read_map gpios base }
{
    Map {
        positions: positions(base, gpios),
        lines: listed(gpios),
    }
}

// The map of a place; past the last ROM there are no lines.
fn place_map(roms: u8, k: u8, gpios: [u8; 32], base: u8) -> Map
    ensures { result ≡ place_map roms k gpios base }
{
    if k < roms {
        return map_of(gpios, base);
    }
    Map {
        positions: [0u8; 32],
        lines: 0,
    }
}

fn address_map(s: StoredSlot, k: u8) -> Map
    requires { addr_base s ≤ 255 }
    ensures { result ≡ place_map s.num_roms k (rom_at s k).addr (addr_base s) }
{
    let rom = rom_at(s, k);
    let gpios = rom.addr;
    place_map(s.num_roms, k, gpios, addr_base(s) as u8)
}

// The data lines of a place, in the order of the dump's bytes.
fn data_map(order: ByteOrder, s: StoredSlot, k: u8) -> Map
    requires { stored_data_base s ≤ 255 }
    ensures { result ≡ data_map order s k }
{
    let rom = rom_at(s, k);
    let gpios = rom.data_lines;
    let map = place_map(s.num_roms, k, gpios, data_base(s) as u8);
    match order {
        ByteOrder::LowFirst => map,
        ByteOrder::HighFirst => high_first(map),
    }
}

fn pick_position(s: StoredSlot, set_type: ChipSetType, k: u8) -> u8
    requires { (addr_base s ≤ 255) × (pick_gpio s set_type k ≤ 255) }
    ensures { result ≡ stored_pick_position s set_type k }
{
    position(addr_base(s) as u8, pick_gpio(s, set_type, k) as u8)
}

// The position of the k-th line that picks; at most three do.
fn pick_entry(s: StoredSlot, set_type: ChipSetType, k: u8) -> u8
    requires { Readable s set_type }
    ensures { result ≡ cond (ltb k 3) (stored_pick_position s set_type k) 0 }
{
    if k < 3 {
        return pick_position(s, set_type, k);
    }
    0
}

fn pick_positions(s: StoredSlot, set_type: ChipSetType) -> [u8; 32]
    requires { Readable s set_type }
    ensures { result ≡ tab 32 (λ k. cond (ltb k 3) (stored_pick_position s set_type k) 0) }
{
    let mut out = [0u8; 32];
    for k in 0..32 {
        out[k] = pick_entry(s, set_type, k as u8);
    }
    out
}

// The lines that pick.
fn pick_map(s: StoredSlot, set_type: ChipSetType) -> Map
    requires { Readable s set_type }
    ensures { result ≡ pick_map s set_type }
{
    Map {
        positions: pick_positions(s, set_type),
        lines: num_picks(set_type, s.num_roms),
    }
}

fn address_maps(s: StoredSlot, set_type: ChipSetType) -> [Map; 5]
    requires { Readable s set_type }
    ensures { result ≡ tab 5 (address_map s set_type) }
{
    [
        address_map(s, 0),
        address_map(s, 1),
        address_map(s, 2),
        address_map(s, 3),
        pick_map(s, set_type),
    ]
}

fn data_maps(order: ByteOrder, s: StoredSlot) -> [Map; 5]
    requires { stored_data_base s ≤ 255 }
    ensures { result ≡ tab 5 (data_map order s) }
{
    [
        data_map(order, s, 0),
        data_map(order, s, 1),
        data_map(order, s, 2),
        data_map(order, s, 3),
        data_map(order, s, 4),
    ]
}

// The place of a ROM; the fifth for none.
fn place_of(picked: Option<u8>) -> u8
    ensures { result ≡ rom_place picked }
{
    match picked {
        None => 4,
        Some(k) => k,
    }
}

fn places(set_type: ChipSetType, roms: u8) -> [u8; 8]
    ensures { result ≡ tab 8 (λ bits. rom_place (picked_by set_type roms bits)) }
{
    let mut out = [0u8; 8];
    for bits in 0u8..8 {
        out[bits as usize] = place_of(picked_by(set_type, roms, bits));
    }
    out
}

// A ROM's words among all; past the last ROM there are none.
fn extent(s: StoredSlot, k: u8) -> Extent
    requires { all_words s ≤ 2 ^ 26 }
    ensures { result ≡ extent_of s k }
{
    if k < s.num_roms {
        return Extent {
            start: words_before(s, k) as u32,
            words: rom_words(s, k) as u32,
        };
    }
    Extent { start: 0, words: 0 }
}

fn extents(s: StoredSlot) -> [Extent; 5]
    requires { all_words s ≤ 2 ^ 26 }
    ensures { result ≡ tab 5 (extent_of s) }
{
    [
        extent(s, 0),
        extent(s, 1),
        extent(s, 2),
        extent(s, 3),
        extent(s, 4),
    ]
}

// What the entries of a slot are read by.
pub fn reading(order: ByteOrder, s: StoredSlot, set_type: ChipSetType) -> Reading
    requires { Readable s set_type }
    ensures { result ≡ reading_of order s set_type }
{
    Reading {
        address: address_maps(s, set_type),
        data_lines: data_maps(order, s),
        roms: places(set_type, s.num_roms),
        extents: extents(s),
        forced: forced(s),
        forced_high: forced_high(s),
        word_bytes: word_bytes(s) as u8,
        words: words_before(s, s.num_roms) as u32,
    }
}
