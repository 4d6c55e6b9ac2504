// The ROMs: where their maps lead, and what a ROM is refused for.
ghost use Rattle.std.specs.Prelude.{◌≡◌, cond, not, ◌&&◌, ◌+◌, ◌≤◌, ◌<◌, eqb, get_or};
ghost use Rattle.lists.specs.Each.{each};
ghost use Rattle.refusal.specs.First.{first_of};
ghost use Rattle.stored_slot.specs.Stored.{rom_at, map_lines, within};
ghost use Rattle.stored_slot.specs.Faults.{rom_fault};

use crate::stored::{Rom, StoredSlot};
use crate::window::{addr_base, data_base, within, word_bytes};
use refusal::Refusal;

// ROM k; past the last a ROM without map and size.
pub fn rom_at(s: StoredSlot, k: u8) -> Rom
    ensures { result ≡ rom_at s k }
{
    if 4 <= k {
        return Rom {
            has_map: false,
            chip_size: 0,
            addr: [0u8; 32],
            data_lines: [0u8; 32],
        };
    }
    let roms = s.roms;
    roms[k as usize]
}

// The count with entry k, which counts where all before it do.
fn next(n: u8, k: u8, gpio: u8) -> u8
    requires { k < 255 }
    ensures { result ≡ cond (eqb n k && not (eqb gpio 255)) (k + 1) n }
{
    if (n == k) & (gpio != 255) {
        return k + 1;
    }
    n
}

// How many entries a map lists: it ends at 255, or with its last.
pub fn listed(map: [u8; 32]) -> u8
    ensures value { result ≡ map_lines 32 map }
    ensures upper_bound { result ≤ 32 }
{
    let mut n: u8 = 0;
    for k in 0u8..32 {
        n = next(n, k, map[k as usize]);
    }
    n
}

// Whether each GPIO of a map is one of n from a base.
fn map_within(map: [u8; 32], base: u32, n: u32) -> bool
    ensures { result ≡ each (map_lines 32 map) (λ k. within base n (get_or map k 0)) }
{
    let count = listed(map) as usize;
    let mut ok = true;
    for k in 0..count {
        ok = ok & within(base, n, lists::array::entry(&map, k) as u32);
    }
    ok
}

// What ROM k's map is refused for.
fn rom_fault(s: StoredSlot, k: u8) -> Option<Refusal>
    ensures { result ≡ rom_fault s k }
{
    let rom = rom_at(s, k);
    let gpios = rom.addr;
    let data_gpios = rom.data_lines;
    let addr = s.alg_addr;
    let width = 8 * word_bytes(s);
    let missing = (!rom.has_map).then_some(Refusal::MissingLayout);
    let lines = (!map_within(gpios, addr_base(s), addr.num_addr_pins as u32)).then_some(
        Refusal::BadLayout,
    );
    let data = (!map_within(data_gpios, data_base(s), width)).then_some(Refusal::BadLayout);
    let count = (listed(data_gpios) as u32 != width).then_some(Refusal::BadLayout);
    missing.or(lines.or(data.or(count)))
}

// The fault of the first ROM that has one.
pub fn first_fault(s: StoredSlot) -> Option<Refusal>
    ensures { result ≡ first_of s.num_roms (rom_fault s) }
{
    let n = s.num_roms;
    let mut fault = None;
    for k in 0..n {
        fault = fault.or(rom_fault(s, k));
    }
    fault
}
