// A record's bytes, out of the digits of its line.
ghost use Rattle.std.specs.Prelude.{◌≡◌, ◌+◌, ◌-◌, ◌*◌, ◌%◌, ◌<◌, ◌≤◌, true, length, slice_index};
ghost use Rattle.lists.specs.Each.{each};
ghost use Rattle.lists.specs.Each.{total};
ghost use Rattle.hex_record.specs.Digits.{digit_of, is_digit};
ghost use Rattle.hex_record.specs.Record.{record_byte};
ghost use Rattle.hex_record.specs.Design.There.{ByteThere, BytesThere};

use lists::array::entry;

// Whether a character is a hex digit.
fn is_digit(c: u8) -> bool
    ensures { result ≡ is_digit c }
{
    ((48 <= c) & (c <= 57)) | ((65 <= c) & (c <= 70)) | ((97 <= c) & (c <= 102))
}

// The value of a character that is a hex digit: a letter has bit 6, and its low bits count from 1. Without a branch, since digits
// come in no order that a processor could guess.
fn value(c: u8) -> u8
    requires { is_digit c ≡ true }
    ensures { (result ≡ digit_of c) × (result < 16) }
{
    c % 16 + 9 * (c / 64)
}

// The value of a hex digit; 16 of any other character.
pub fn digit(c: u8) -> u8
    ensures value { result ≡ digit_of c }
    ensures upper_bound { result ≤ 16 }
{
    if is_digit(c) {
        return value(c);
    }
    16
}

// Byte k of a record, whatever the line holds.
pub fn record_byte(line: &[u8], k: u16) -> u16
    ensures value { result ≡ record_byte line.now k }
    ensures upper_bound { result ≤ 272 }
{
    let at = 2 * k as usize;
    let high = digit(entry(line, at + 1));
    let low = digit(entry(line, at + 2));
    16 * high as u16 + low as u16
}

// Byte k of a record whose line has its digits.
pub fn byte_at(line: &[u8], k: usize) -> u8
    requires { ByteThere line.now k }
    ensures { result ≡ record_byte line.now k }
{
    let high = value(line[2 * k + 1]);
    let low = value(line[2 * k + 2]);
    16 * high + low
}

// Whether all behind the first character are digits. No character ends the loop early: it takes many at a time.
pub fn all_digits(line: &[u8]) -> bool
    ensures { result ≡ each (length line.now - 1) (λ k. is_digit (slice_index line.now (k + 1))) }
{
    let mut ok = true;
    for k in 1..line.len() {
        ok = ok & is_digit(line[k]);
    }
    ok
}

// The sum of a record's first n bytes, modulo 256, where the line has their digits. That of hex_base takes bytes out of a slice; one
// function for both would take a closure, whose digits each call would have to show.
pub fn sum(line: &[u8], n: usize) -> u8
    requires { BytesThere line.now n }
    ensures { result ≡ total n (record_byte line.now) % 256 }
{
    let mut s: u8 = 0;
    for k in 0..n {
        s = s.wrapping_add(byte_at(line, k));
    }
    s
}
