// The parts of a stored slot at their places in the record.
ghost use Rattle.std.specs.Prelude.{◌≡◌, ◌+◌, ◌≤◌};
ghost use Rattle.fields.specs.Fields.{bytes_at};
ghost use Rattle.stored_record.specs.StoredRecord.{stored_size, slot_type_of, alg_addr_at, alg_data_at, alg_dma_at, alg_cs_at, rom_from, roms_at, roms_formed};

use fields::{fill, flag_formed, four_at};
use lists::array::entry;
use slot::description::ChipSetType;
use stored_slot::stored::{AlgAddr, AlgCs, AlgData, AlgDma, Rom, SlotType};

// What the slot's kind byte says.
pub fn slot_type(x: u8) -> SlotType
    ensures { result ≡ slot_type_of x }
{
    if x <= 1 {
        return SlotType::Roms(ChipSetType::Single);
    }
    if x == 2 {
        return SlotType::Roms(ChipSetType::Banked);
    }
    if x == 3 {
        return SlotType::Roms(ChipSetType::Multi);
    }
    if x <= 6 {
        return SlotType::Plugin;
    }
    SlotType::Unknown
}

// The address PIO: places 6 to 9.
pub fn alg_addr(b: &[u8]) -> AlgAddr
    ensures { result ≡ alg_addr_at b.now }
{
    AlgAddr {
        alg: entry(b, 6),
        gpio_base: entry(b, 7),
        base_addr_pin: entry(b, 8),
        num_addr_pins: entry(b, 9),
    }
}

// The data PIO: places 10 to 12.
pub fn alg_data(b: &[u8]) -> AlgData
    ensures { result ≡ alg_data_at b.now }
{
    AlgData {
        alg: entry(b, 10),
        gpio_base: entry(b, 11),
        base_data_pin: entry(b, 12),
    }
}

// The DMA: places 13 and 14.
pub fn alg_dma(b: &[u8]) -> AlgDma
    ensures { result ≡ alg_dma_at b.now }
{
    AlgDma {
        alg: entry(b, 13),
        bit_mode: entry(b, 14),
    }
}

// The select detection: places 15 to 17.
pub fn alg_cs(b: &[u8]) -> AlgCs
    ensures { result ≡ alg_cs_at b.now }
{
    AlgCs {
        alg: entry(b, 15),
        gpio_base: entry(b, 16),
        first_rom_cs_base: entry(b, 17),
    }
}

// The overrides: places 19 to 82.
pub fn overrides(b: &[u8]) -> [u8; 64]
    ensures { result ≡ bytes_at b.now 19 64 }
{
    let mut out = [0u8; 64];
    fill(b, 19, &mut out);
    out
}

// The GPIOs of a ROM's address or data lines.
fn lines(b: &[u8], p: usize) -> [u8; 32]
    requires { p + 32 ≤ stored_size }
    ensures { result ≡ bytes_at b.now p 32 }
{
    let mut out = [0u8; 32];
    fill(b, p, &mut out);
    out
}

fn rom(b: &[u8], p: usize) -> Rom
    requires { p + 72 ≤ stored_size }
    ensures { result ≡ rom_from b.now p }
{
    Rom {
        has_map: entry(b, p) == 1,
        chip_size: four_at(b, p + 4),
        addr: lines(b, p + 8),
        data_lines: lines(b, p + 40),
    }
}

// ROMs 0 to 3, 72 bytes a ROM.
pub fn roms(b: &[u8]) -> [Rom; 4]
    ensures { result ≡ roms_at b.now }
{
    [rom(b, 88), rom(b, 160), rom(b, 232), rom(b, 304)]
}

// Whether each ROM's flag is 0 or 1, and its kept places are 0.
pub fn roms_formed(b: &[u8]) -> bool
    ensures { result ≡ roms_formed b.now }
{
    let first = flag_formed(b, 88);
    let second = flag_formed(b, 160);
    let third = flag_formed(b, 232);
    let fourth = flag_formed(b, 304);
    first & second & third & fourth
}
