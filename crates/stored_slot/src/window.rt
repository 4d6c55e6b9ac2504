// The slot's windows, and what is wrong with its algorithms.
ghost use Rattle.std.specs.Prelude.{◌≡◌, ◌&&◌, ◌*◌, ◌^◌, ◌<◌, ltb, eqb, length};
ghost use Rattle.stored_slot.specs.Stored.{word_bytes, addr_base, stored_data_base, stored_select, stored_pins, within, in_window};
ghost use Rattle.stored_slot.specs.Faults.{layout_fault};

use crate::stored::StoredSlot;
use refusal::Refusal;

// How many bytes a word has.
pub fn word_bytes(s: StoredSlot) -> u32
    ensures { result ≡ word_bytes s }
{
    let dma = s.alg_dma;
    dma.bit_mode as u32 + 1
}

// The first GPIO of the address window.
pub fn addr_base(s: StoredSlot) -> u32
    ensures { result ≡ addr_base s }
{
    let addr = s.alg_addr;
    addr.gpio_base as u32 + addr.base_addr_pin as u32
}

// The first GPIO of the data window.
pub fn data_base(s: StoredSlot) -> u32
    ensures { result ≡ stored_data_base s }
{
    let lines = s.alg_data;
    lines.gpio_base as u32 + lines.base_data_pin as u32
}

// The GPIO of the first ROM's select line.
pub fn select_gpio(s: StoredSlot) -> u32
    ensures { result ≡ stored_select s }
{
    let cs = s.alg_cs;
    cs.gpio_base as u32 + cs.first_rom_cs_base as u32
}

// Whether a GPIO is one of n from a base.
pub fn within(base: u32, n: u32, gpio: u32) -> bool
    ensures { result ≡ within base n gpio }
{
    if gpio < base {
        return false;
    }
    gpio - base < n
}

// Whether a GPIO is in the address window.
pub fn in_window(s: StoredSlot, gpio: u32) -> bool
    ensures { result ≡ in_window s gpio }
{
    let addr = s.alg_addr;
    within(addr_base(s), addr.num_addr_pins as u32, gpio)
}

// How many entries the table of so many pins has.
pub fn entries(s: StoredSlot) -> u32
    requires { stored_pins s < 32 }
    ensures { result ≡ 2 ^ stored_pins s }
{
    let addr = s.alg_addr;
    1u32 << addr.num_addr_pins
}

// Whether a table has an entry for each index of the pins. With 32 and more pins none has, and nothing is shifted.
fn table_whole(s: StoredSlot, length: usize) -> bool
    ensures { result ≡ (ltb (stored_pins s) 32 && eqb length (2 ^ stored_pins s * word_bytes s)) }
{
    let addr = s.alg_addr;
    if 31 < addr.num_addr_pins {
        return false;
    }
    length as u64 == (1u64 << addr.num_addr_pins) * word_bytes(s) as u64
}

// What the algorithms and the table's length are refused for, in the order in which they are looked at.
pub fn layout_fault(s: StoredSlot, stored: &[u8]) -> Option<Refusal>
    ensures { result ≡ layout_fault s stored.now }
{
    let addr = s.alg_addr;
    let lines = s.alg_data;
    let dma = s.alg_dma;
    let missing = (!s.has_layout).then_some(Refusal::MissingLayout);
    let addr_alg = (addr.alg != 0).then_some(Refusal::UnknownAlgorithm);
    let addr_sum = (255 < addr_base(s)).then_some(Refusal::BadLayout);
    let data_alg = (1 < lines.alg).then_some(Refusal::UnknownAlgorithm);
    let data_sum = (255 < data_base(s)).then_some(Refusal::BadLayout);
    let dma_alg = ((dma.alg != 0) | (1 < dma.bit_mode)).then_some(Refusal::UnknownAlgorithm);
    let table = (!table_whole(s, stored.len())).then_some(Refusal::BadLayout);
    missing.or(addr_alg.or(addr_sum.or(data_alg.or(data_sum.or(dma_alg.or(table))))))
}
