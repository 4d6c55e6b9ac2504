// The address layout record: written where a search answers, read where a layout is handed in.
// docs/INTERFACE.md gives the place of each number.
#![tactic(auto)]

ghost use Rattle.std.specs.Prelude.{◌≡◌, true, ◌++◌, ◌≤◌, length, drop};
ghost use Rattle.addr_record.specs.AddrRecord.{addr_size, x_byte, x_of, addr_head, layout_bytes, layout_at, layout_formed, given_at, given_formed};

use addr_layout::layout::AddrLayout;
use fields::{four_at, whole};
use laid_bytes::copy;
use lists::array::entry;

// Bytes of a record.
pub const SIZE: usize = 36;

fn x_byte(x: Option<u8>) -> u8
    ensures { result ≡ x_byte x }
{
    match x {
        None => 255,
        Some(g) => g,
    }
}

fn head(l: AddrLayout) -> [u8; 8]
    ensures { result ≡ addr_head l }
{
    let x1 = l.x1_gpio;
    let x2 = l.x2_gpio;
    [
        l.gpio_base,
        l.num_addr_pins,
        x_byte(x1),
        x_byte(x2),
        l.num_lines,
        l.num_excess,
        0,
        0,
    ]
}

// Stores the record at the front of a buffer.
pub fn store(l: AddrLayout, out: &mut [u8])
    requires { addr_size ≤ length out.old }
    ensures { out.new ≡ layout_bytes l ++ drop addr_size out.old }
{
    let head = head(l);
    let gpios = l.gpios;
    let inverted = [0u8; 4];
    copy(&head, out);
    copy(&gpios, &mut out[8..]);
    copy(&inverted, &mut out[32..]);
}

fn x_of(x: u8) -> Option<u8>
    ensures { result ≡ x_of x }
{
    if x == 255 {
        return None;
    }
    Some(x)
}

// What a record lays out.
pub fn layout_at(b: &[u8]) -> AddrLayout
    requires { addr_size ≤ length b.now }
    ensures { result ≡ layout_at b.now }
{
    AddrLayout {
        gpio_base: whole::entry(b, 0),
        num_addr_pins: whole::entry(b, 1),
        x1_gpio: x_of(whole::entry(b, 2)),
        x2_gpio: x_of(whole::entry(b, 3)),
        gpios: whole::bytes_at(b, 8),
        num_lines: whole::entry(b, 4),
        num_excess: whole::entry(b, 5),
    }
}

// Whether the bytes are a record.
pub fn formed(b: &[u8]) -> bool
    ensures { result ≡ layout_formed b.now }
{
    let spare = entry(b, 6);
    let spare_2 = entry(b, 7);
    let inverted = four_at(b, 32);
    (b.len() == SIZE) & (spare == 0) & (spare_2 == 0) & (inverted == 0)
}

// The layout that a record gives; no bytes give none.
pub fn given_at(b: &[u8]) -> Option<AddrLayout>
    requires { given_formed b.now ≡ true }
    ensures { result ≡ given_at b.now }
{
    if b.len() == 0 {
        return None;
    }
    Some(layout_at(b))
}

// Whether the bytes are a record or none.
pub fn given_formed(b: &[u8]) -> bool
    ensures { result ≡ given_formed b.now }
{
    (b.len() == 0) | formed(b)
}
