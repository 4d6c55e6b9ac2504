// What read-back is given of a found layout.
ghost use Rattle.std.specs.Prelude.{◌≡◌, cond, ◌≤◌, ◌<◌, ◌^◌, ltb, get_or};
ghost use Rattle.lists.specs.Tab.{tab};
ghost use Rattle.build_args.specs.Faults.{table_size};
ghost use Rattle.round_trip.specs.Stored.{map_list, stored_rom, gpio_or0, alg_addr_of, alg_data_of, alg_cs_of, stored_of};

use addr_layout::layout::AddrLayout;
use build_args::images::chip_size;
use build_args::lines::first_select;
use build_faults::table_size;
use cs_data_layout::layout::CsDataLayout;
use lists::array::entry;
use slot::description::Description;
use stored_slot::stored::{AlgAddr, AlgCs, AlgData, AlgDma, Rom, SlotType, StoredSlot};

// Entry k of a map of the first n GPIOs: 255 past them.
fn map_entry(gpios: &[u8], n: u8, k: usize) -> u8
    ensures { result ≡ cond (ltb k n) (get_or gpios.now k 0) 255 }
{
    if k < n as usize {
        return entry(gpios, k);
    }
    255
}

// A map's list of the first n GPIOs.
fn map_of(gpios: &[u8], n: u8) -> [u8; 32]
    ensures { result ≡ map_list gpios.now n }
{
    let mut out = [0u8; 32];
    for k in 0..32 {
        out[k] = map_entry(gpios, n, k);
    }
    out
}

// The map of the address lines in use.
fn addr_map(a: AddrLayout) -> [u8; 32]
    ensures { result ≡ map_list a.gpios a.num_lines }
{
    let gpios = a.gpios;
    map_of(&gpios, a.num_lines)
}

// The map of the data lines.
fn data_map(c: CsDataLayout) -> [u8; 32]
    ensures { result ≡ map_list c.data_pin_gpios c.num_data_pins }
{
    let gpios = c.data_pin_gpios;
    map_of(&gpios, c.num_data_pins)
}

// Chip k as a ROM that is stored.
fn rom(d: Description, a: AddrLayout, c: CsDataLayout, k: u8) -> Rom
    ensures { result ≡ stored_rom d a c k }
{
    Rom {
        has_map: true,
        chip_size: chip_size(d, k),
        addr: addr_map(a),
        data_lines: data_map(c),
    }
}

// All four ROMs; those past the number of chips count for nothing.
fn roms(d: Description, a: AddrLayout, c: CsDataLayout) -> [Rom; 4]
    ensures { result ≡ tab 4 (stored_rom d a c) }
{
    let none = Rom {
        has_map: false,
        chip_size: 0,
        addr: [0u8; 32],
        data_lines: [0u8; 32],
    };
    let mut out = [none; 4];
    for k in 0u8..4 {
        out[k as usize] = rom(d, a, c, k);
    }
    out
}

// A line's GPIO; 0 where there is none.
fn gpio_or_0(x: Option<u8>) -> u8
    ensures { result ≡ gpio_or0 x }
{
    match x {
        None => 0,
        Some(gpio) => gpio,
    }
}

// The address algorithm, with the address layout's base and pins.
fn alg_addr(a: AddrLayout) -> AlgAddr
    ensures { result ≡ alg_addr_of a }
{
    AlgAddr {
        alg: 0,
        gpio_base: a.gpio_base,
        base_addr_pin: 0,
        num_addr_pins: a.num_addr_pins,
    }
}

// The data algorithm, from the lowest data GPIO.
fn alg_data(c: CsDataLayout) -> AlgData
    ensures { result ≡ alg_data_of c }
{
    AlgData {
        alg: 0,
        gpio_base: c.gpio_base,
        base_data_pin: c.base_data_pin,
    }
}

// The select algorithm, AlgCs0 with the first select line's GPIO.
fn alg_cs(c: CsDataLayout) -> AlgCs
    ensures { result ≡ alg_cs_of c }
{
    AlgCs {
        alg: 0,
        gpio_base: gpio_or_0(first_select(c)),
        first_rom_cs_base: 0,
    }
}

// The slot as it is stored, of the layouts found for it.
pub fn stored_slot(d: Description, a: AddrLayout, c: CsDataLayout) -> StoredSlot
    requires { (a.num_addr_pins < 32) × (1 ≤ d.word_bytes) × (d.word_bytes ≤ 2) × (table_size d a ≤ 2 ^ 20) }
    ensures { result ≡ stored_of d a c }
{
    let set_type = d.set_type;
    let board = d.board;
    let x1 = board.x1;
    let x2 = board.x2;
    StoredSlot {
        size: table_size(d, a) as u32,
        slot_type: SlotType::Roms(set_type),
        has_layout: true,
        alg_addr: alg_addr(a),
        alg_data: alg_data(c),
        alg_dma: AlgDma {
            alg: 0,
            bit_mode: d.word_bytes - 1,
        },
        alg_cs: alg_cs(c),
        overrides: [0u8; 64],
        num_overrides: 0,
        x1: x1,
        x2: x2,
        roms: roms(d, a, c),
        num_roms: d.num_chips,
    }
}
