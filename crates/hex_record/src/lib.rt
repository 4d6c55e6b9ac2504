// A line of an Intel HEX text: what it says if it is a record, and what it is refused for.
#![tactic(auto)]

pub mod digits; // a record's bytes, out of its digits

ghost use Rattle.std.specs.Prelude.{◌≡◌, ◌+◌, ◌*◌, ◌^◌, ◌<◌, ◌≤◌, ◌&&◌, ◌==◌, nat_lt};
ghost use Rattle.hex_record.specs.Record.{count_of, offset_of, address_of, well_formed, type_sound, shaped, line_fault, is_end, is_data, upper_after};
ghost use Rattle.hex_record.specs.Design.Fields.{Fields};

use crate::digits::{all_digits, record_byte, sum};
use lists::array::entry;
use refusal::Refusal;

// How many data bytes a record has.
pub fn count(line: &[u8]) -> usize
    ensures value { result ≡ count_of line.now }
    ensures upper_bound { result ≤ 272 }
{
    record_byte(line, 0) as usize
}

// Where in its block of 64 KiB a record's data begin.
fn offset(line: &[u8]) -> usize
    ensures value { result ≡ offset_of line.now }
    ensures upper_bound { result ≤ 69904 }
{
    256 * record_byte(line, 1) as usize + record_byte(line, 2) as usize
}

// Where in the chip a record's data begin.
pub fn address(line: &[u8], upper: u32) -> usize
    ensures value { result ≡ address_of upper line.now }
    ensures upper_bound { result < 2 ^ 49 }
{
    65536 * upper as usize + offset(line)
}

// Whether a line is a colon and as many digits as its count asks for.
fn well_formed(line: &[u8], n: usize) -> bool
    requires { (n ≡ count_of line.now) × (n ≤ 272) }
    ensures { result ≡ well_formed line.now }
{
    (entry(line, 0) == 58) & (line.len() == 2 * n + 11) & all_digits(line)
}

// Whether a record of this type may have so many data bytes at this offset.
fn type_sound(kind: u16, count: usize, offset: usize) -> bool
    requires { (count ≤ 272) × (offset ≤ 69904) }
    ensures { result ≡ type_sound kind count offset }
{
    if kind == 0 {
        return offset + count <= 65536;
    }
    if kind == 1 {
        return (count == 0) & (offset == 0);
    }
    (kind == 4) & (count == 2) & (offset == 0)
}

// Whether a line has a record's shape. Its fields are handed in, so that they are read from their digits once.
fn shaped(line: &[u8], kind: u16, n: usize, at: usize) -> bool
    requires { Fields line.now kind n at }
    ensures { result ≡ shaped line.now }
{
    well_formed(line, n) & type_sound(kind, n, at)
}

// Whether a record of this type has a data byte past `size`, where its n data bytes begin at an address.
fn past_chip(kind: u16, n: usize, address: usize, size: usize) -> bool
    requires { (n ≤ 272) × (address < 2 ^ 49) }
    ensures { result ≡ (kind == 0) && nat_lt 0 n && nat_lt size (address + n) }
{
    (kind == 0) & (0 < n) & (size < address + n)
}

// What a line is refused for, behind an upper half of addresses, for a chip of `size` bytes. The end record as it is written here,
// and by most programs, is sound; small letters make it another text, and that too is read.
pub fn line_fault(line: &[u8], upper: u32, size: usize) -> Option<Refusal>
    ensures { result ≡ line_fault size upper line.now }
{
    let end: &[u8] = b":00000001FF";
    if line == end {
        return None;
    }
    let kind = record_byte(line, 3);
    let n = count(line);
    let at = offset(line);
    if !shaped(line, kind, n, at) {
        return Some(Refusal::BadRecord);
    }
    if sum(line, n + 5) != 0 {
        return Some(Refusal::BadChecksum);
    }
    let past = past_chip(kind, n, 65536 * upper as usize + at, size);
    past.then_some(Refusal::PastChip)
}

// Whether a record is the end.
pub fn is_end(line: &[u8]) -> bool
    ensures { result ≡ is_end line.now }
{
    record_byte(line, 3) == 1
}

// Whether a record has data.
pub fn is_data(line: &[u8]) -> bool
    ensures { result ≡ is_data line.now }
{
    record_byte(line, 3) == 0
}

// The upper half of addresses behind a record.
pub fn upper_after(line: &[u8], upper: u32) -> u32
    ensures { result ≡ upper_after upper line.now }
{
    if record_byte(line, 3) == 4 {
        return 256 * record_byte(line, 4) as u32 + record_byte(line, 5) as u32;
    }
    upper
}
