// The select and data layout record: written where the search answers, read where a build is handed one.
// docs/INTERFACE.md gives the place of each number.
#![tactic(auto)]

ghost use Rattle.std.specs.Prelude.{◌≡◌, ◌++◌, ◌+◌, ◌*◌, ◌≤◌, length, drop};
ghost use Rattle.cs_data_record.specs.CsDataRecord.{cs_data_size, ignore_byte, qualifier_bytes, cs_data_head, cs_data_bytes, ignore_of, line_from, lines_from, qualifiers_at, cs_data_at, cs_data_formed};
ghost use Rattle.cs_data_record.specs.Design.Pairs.{pairs_of};

use cs_data_layout::layout::{CsDataLayout, Qualifiers, SelectLine};
use fields::bytes_at;
use laid_bytes::copy;
use lists::array::entry;

// Bytes of a record.
pub const SIZE: usize = 100;

fn ignore_byte(index: Option<u8>) -> u8
    ensures { result ≡ ignore_byte index }
{
    match index {
        None => 255,
        Some(k) => k,
    }
}

// Whether there are qualifiers, then their numbers; 0 without them.
fn qualifier_bytes(qualifiers: Option<Qualifiers>) -> [u8; 4]
    ensures { result ≡ qualifier_bytes qualifiers }
{
    match qualifiers {
        None => [0, 0, 0, 0],
        Some(q) => [
            1,
            q.base_qualifier_pin,
            q.num_qualifier_pins,
            q.qualifier_inactive_pattern,
        ],
    }
}

fn head(l: CsDataLayout) -> [u8; 12]
    ensures { result ≡ cs_data_head l }
{
    let index = l.cs_ignore_index;
    let q = l.qualifiers;
    let qualifiers = qualifier_bytes(q);
    [
        l.gpio_base,
        l.base_data_pin,
        l.num_data_pins,
        l.base_cs_pin,
        l.num_cs_pins,
        ignore_byte(index),
        l.num_select_lines,
        l.num_commoned_lines,
        qualifiers[0],
        qualifiers[1],
        qualifiers[2],
        qualifiers[3],
    ]
}

// Two bytes a line. The loop reads and writes nothing else: the compiler makes one copy of it.
fn pair_bytes<const N: usize>(lines: &[SelectLine]) -> [u8; N]
    requires { N ≡ 2 * length lines.now }
    ensures { result ≡ pairs_of N lines.now }
{
    let mut out = [0u8; N];
    for k in 0..lines.len() {
        let line = lines[k];
        out[2 * k] = line.role;
        out[2 * k + 1] = line.gpio;
    }
    out
}

// Stores the record at the front of a buffer.
pub fn store(l: CsDataLayout, out: &mut [u8])
    requires { cs_data_size ≤ length out.old }
    ensures { out.new ≡ cs_data_bytes l ++ drop cs_data_size out.old }
{
    let head = head(l);
    let gpios = l.data_pin_gpios;
    let selects: [u8; 60] = pair_bytes(&l.select_lines);
    let commoned: [u8; 12] = pair_bytes(&l.commoned_lines);
    copy(&head, out);
    copy(&gpios, &mut out[12..]);
    copy(&selects, &mut out[28..]);
    copy(&commoned, &mut out[88..]);
}

fn ignore_of(x: u8) -> Option<u8>
    ensures { result ≡ ignore_of x }
{
    if x == 255 {
        return None;
    }
    Some(x)
}

fn line_from(b: &[u8], p: usize) -> SelectLine
    requires { p + 2 ≤ cs_data_size }
    ensures { result ≡ line_from b.now p }
{
    SelectLine {
        role: entry(b, p),
        gpio: entry(b, p + 1),
    }
}

// So many lines from a place, two bytes a line.
fn lines_from<const N: usize>(b: &[u8], p: usize) -> [SelectLine; N]
    requires { p + 2 * N ≤ cs_data_size }
    ensures { result ≡ lines_from b.now p N }
{
    let mut out = [SelectLine { role: 0, gpio: 0 }; N];
    for k in 0..N {
        out[k] = line_from(b, p + 2 * k);
    }
    out
}

fn qualifiers(b: &[u8]) -> Option<Qualifiers>
    ensures { result ≡ qualifiers_at b.now }
{
    if entry(b, 8) == 1 {
        return Some(Qualifiers {
            base_qualifier_pin: entry(b, 9),
            num_qualifier_pins: entry(b, 10),
            qualifier_inactive_pattern: entry(b, 11),
        });
    }
    None
}

// What the record lays out.
pub fn layout_at(b: &[u8]) -> CsDataLayout
    ensures { result ≡ cs_data_at b.now }
{
    CsDataLayout {
        gpio_base: entry(b, 0),
        base_data_pin: entry(b, 1),
        num_data_pins: entry(b, 2),
        data_pin_gpios: bytes_at(b, 12),
        base_cs_pin: entry(b, 3),
        num_cs_pins: entry(b, 4),
        cs_ignore_index: ignore_of(entry(b, 5)),
        select_lines: lines_from(b, 28),
        num_select_lines: entry(b, 6),
        commoned_lines: lines_from(b, 88),
        num_commoned_lines: entry(b, 7),
        qualifiers: qualifiers(b),
    }
}

// Whether the bytes are a record.
pub fn formed(b: &[u8]) -> bool
    ensures { result ≡ cs_data_formed b.now }
{
    (b.len() == SIZE) & (entry(b, 8) <= 1)
}
