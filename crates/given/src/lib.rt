// Whether the slot that read-back is given is one of which the round trip's theorem speaks: it agrees with a description and its
// layouts. The tests stand in premises, with the law that they pass just what the theorem asks for.
#![tactic(auto)]

ghost use Rattle.std.specs.Prelude.{◌≡◌, eqb};
ghost use Rattle.lists.specs.Each.{each};
ghost use Rattle.build_args.specs.Faults.{table_size};
ghost use Rattle.premises.specs.Given.{algs_known, bases_as, lists_of, mapped_as, roms_as, select_as, stored_well};

use addr_layout::layout::AddrLayout;
use build_args::images::chip_size;
use build_args::lines::first_select;
use cs_data_layout::layout::CsDataLayout;
use same_values::{is_at, is_roms, same_to, x_pins_as};
use slot::description::Description;
use stored_slot::roms::{listed, rom_at};
use stored_slot::stored::StoredSlot;
use stored_slot::window::{addr_base, data_base, select_gpio, word_bytes};

fn algs_known(s: StoredSlot) -> bool
    ensures { result ≡ algs_known s }
{
    let addr = s.alg_addr;
    let lines = s.alg_data;
    let dma = s.alg_dma;
    (addr.alg == 0) & (lines.alg <= 1) & (dma.alg == 0)
}

// Whether the windows are those of the layouts.
fn bases_as(a: AddrLayout, c: CsDataLayout, s: StoredSlot) -> bool
    ensures { result ≡ bases_as a c s }
{
    let addr = s.alg_addr;
    let base = c.gpio_base as u32 + c.base_data_pin as u32;
    (addr_base(s) == a.gpio_base as u32)
        & (addr.num_addr_pins == a.num_addr_pins)
        & (data_base(s) == base)
}

// Whether a size is that of the table. With 32 and more pins it is none, unless a word has no bytes.
fn size_is(d: Description, a: AddrLayout, size: u32) -> bool
    ensures { result ≡ eqb size (table_size d a) }
{
    if d.word_bytes == 0 {
        return size == 0;
    }
    if 31 < a.num_addr_pins {
        return false;
    }
    size as u64 == (1u64 << a.num_addr_pins) * d.word_bytes as u64
}

// Whether a map lists the first n GPIOs of a layout's list, and no more.
fn lists(map: [u8; 32], gpios: &[u8], n: u8) -> bool
    ensures { result ≡ lists_of map gpios.now n }
{
    (listed(map) == n) & same_to(&map, gpios, n)
}

fn lists_lines(a: AddrLayout, map: [u8; 32]) -> bool
    ensures { result ≡ lists_of map a.gpios a.num_lines }
{
    let gpios = a.gpios;
    lists(map, &gpios, a.num_lines)
}

fn lists_data(c: CsDataLayout, map: [u8; 32]) -> bool
    ensures { result ≡ lists_of map c.data_pin_gpios c.num_data_pins }
{
    let gpios = c.data_pin_gpios;
    lists(map, &gpios, c.num_data_pins)
}

// Whether ROM k's map lists the lines of the layouts, and its size is that of chip k.
fn mapped_as(d: Description, a: AddrLayout, c: CsDataLayout, s: StoredSlot, k: u8) -> bool
    ensures { result ≡ mapped_as d a c s k }
{
    let rom = rom_at(s, k);
    let addr = rom.addr;
    let lines = rom.data_lines;
    let size = chip_size(d, k);
    rom.has_map & (rom.chip_size == size) & lists_lines(a, addr) & lists_data(c, lines)
}

// Whether the first n ROMs are as they should be.
fn all_mapped(d: Description, a: AddrLayout, c: CsDataLayout, s: StoredSlot, n: u8) -> bool
    ensures { result ≡ each n (λ k. mapped_as d a c s k) }
{
    let mut ok = true;
    for k in 0..n {
        ok = ok & mapped_as(d, a, c, s, k);
    }
    ok
}

// Whether there is such a ROM for each chip.
fn roms_as(d: Description, a: AddrLayout, c: CsDataLayout, s: StoredSlot) -> bool
    ensures { result ≡ roms_as d a c s }
{
    (s.num_roms == d.num_chips) & all_mapped(d, a, c, s, d.num_chips)
}

// Whether the select is AlgCs0 at the first select line's GPIO.
fn select_as(c: CsDataLayout, s: StoredSlot) -> bool
    ensures { result ≡ select_as c s }
{
    let cs = s.alg_cs;
    (cs.alg == 0) & is_at(first_select(c), select_gpio(s))
}

// Whether the slot is one that read-back may be given of these layouts.
pub fn stored_well(d: Description, a: AddrLayout, c: CsDataLayout, s: StoredSlot) -> bool
    ensures { result ≡ stored_well d a c s }
{
    let set_type = d.set_type;
    let slot_type = s.slot_type;
    let multi = set_type.is_multi();
    let layout = is_roms(slot_type, set_type) & s.has_layout & algs_known(s);
    let words = (word_bytes(s) == d.word_bytes as u32) & size_is(d, a, s.size);
    layout
        & words
        & x_pins_as(d, s)
        & bases_as(a, c, s)
        & roms_as(d, a, c, s)
        & (!multi | select_as(c, s))
        & (s.num_overrides <= 64)
}
