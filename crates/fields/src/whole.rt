// Numbers at a place of a record that is known to reach so far: no place is tested, and bytes are copied as one block. They stand beside
// those of the crate that answer for any length: with a test at each byte nothing is copied as a block, and a record is read slower.
ghost use Rattle.std.specs.Prelude.{◌≡◌, ◌+◌, ◌≤◌, ◌<◌, length};
ghost use Rattle.fields.specs.Fields.{byte_at, bytes_at, four_at};
ghost use Rattle.fields.specs.Candidates.{pair_at, pair_in};

use crate::candidates::pair_of;
use crate::{copy, four_of};
use gpio::candidates::Candidates;

// The byte at a place.
pub fn entry(b: &[u8], p: usize) -> u8
    requires { p < length b.now }
    ensures { result ≡ byte_at b.now p }
{
    b[p]
}

// The number of four bytes from a place, low byte first.
pub fn four_at(b: &[u8], p: usize) -> u32
    requires { p + 4 ≤ length b.now }
    ensures { result ≡ four_at b.now p }
{
    four_of(
        entry(b, p),
        entry(b, p + 1),
        entry(b, p + 2),
        entry(b, p + 3),
    )
}

// As many bytes from a place as the array has.
pub fn bytes_at<const N: usize>(b: &[u8], p: usize) -> [u8; N]
    requires { p + N ≤ length b.now }
    ensures { result ≡ bytes_at b.now p N }
{
    let mut out = [0u8; N];
    copy(b, p, &mut out);
    out
}

// The candidates of a pin, two bytes from a place.
pub fn pair_at(b: &[u8], p: usize) -> Candidates
    requires { p + 2 ≤ length b.now }
    ensures { result ≡ pair_at b.now p }
{
    pair_of(entry(b, p), entry(b, p + 1))
}

// Whether the two bytes are candidates: no second without a first.
pub fn pair_in(b: &[u8], p: usize) -> bool
    requires { p + 2 ≤ length b.now }
    ensures { result ≡ pair_in b.now p }
{
    let g = entry(b, p);
    let h = entry(b, p + 1);
    (g != 255) | (h == 255)
}
