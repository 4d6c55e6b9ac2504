// Numbers at a place of a byte record. A place past the record's end reads 0, so that each function here answers for any length; a
// record of another length is refused by whoever reads it. A place is below 2^32, which no record comes near.
#![tactic(auto)]

pub mod candidates; // the candidates of a pin, two bytes
pub mod whole; // the same of a record that reaches so far

ghost use Rattle.std.specs.Prelude.{◌≡◌, ◌+◌, ◌*◌, ◌≤◌, ◌<◌, ◌^◌, length};
ghost use Rattle.fields.specs.Fields.{bytes_at, four_at, flag_formed};

use lists::array::entry;

// The number that four bytes make, low byte first.
fn four_of(x0: u8, x1: u8, x2: u8, x3: u8) -> u32
    ensures { result ≡ x0 + 0x100 * x1 + 0x1_0000 * x2 + 0x100_0000 * x3 }
{
    u32::from_le_bytes([x0, x1, x2, x3])
}

// The number of four bytes from a place, low byte first.
pub fn four_at(b: &[u8], p: usize) -> u32
    requires { p < 2 ^ 32 }
    ensures { result ≡ four_at b.now p }
{
    four_of(
        entry(b, p),
        entry(b, p + 1),
        entry(b, p + 2),
        entry(b, p + 3),
    )
}

// Fills `out` with bytes that are all there.
fn copy(b: &[u8], p: usize, out: &mut [u8])
    requires { p + length out.old ≤ length b.now }
    ensures { out.new ≡ bytes_at b.now p (length out.old) }
{
    out.copy_from_slice(&b[p..p + out.len()]);
}

// Fills `out` with bytes of which some are past the record's end.
fn copy_padded(b: &[u8], p: usize, out: &mut [u8])
    requires { p < 2 ^ 32 }
    ensures { out.new ≡ bytes_at b.now p (length out.old) }
{
    for k in 0..out.len() {
        out[k] = entry(b, p + k);
    }
}

// Fills `out` with the bytes from the place p on.
pub fn fill(b: &[u8], p: usize, out: &mut [u8])
    requires { p < 2 ^ 32 }
    ensures { out.new ≡ bytes_at b.now p (length out.old) }
{
    if p + out.len() <= b.len() {
        copy(b, p, out);
    } else {
        copy_padded(b, p, out);
    }
}

// As many bytes from a place as the array has.
pub fn bytes_at<const N: usize>(b: &[u8], p: usize) -> [u8; N]
    requires { p < 2 ^ 32 }
    ensures { result ≡ bytes_at b.now p N }
{
    let mut out = [0u8; N];
    fill(b, p, &mut out);
    out
}

// Whether a flag is 0 or 1, and the three places kept behind it are 0.
pub fn flag_formed(b: &[u8], p: usize) -> bool
    requires { p < 2 ^ 32 }
    ensures { result ≡ flag_formed b.now p }
{
    let flag = entry(b, p);
    let spare = entry(b, p + 1);
    let spare_2 = entry(b, p + 2);
    let spare_3 = entry(b, p + 3);
    (flag <= 1) & (spare == 0) & (spare_2 == 0) & (spare_3 == 0)
}
