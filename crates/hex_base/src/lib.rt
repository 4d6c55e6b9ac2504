// What reading and writing Intel HEX share: the largest chip, and the checksum.
#![tactic(auto)]

ghost use Rattle.std.specs.Prelude.{◌≡◌, ◌%◌};
ghost use Rattle.hex_base.specs.Size.{too_long};
ghost use Rattle.hex_base.specs.Sum.{bytes_total, checksum_of};

// Whether a chip of so many bytes is larger than any that is read or written.
pub fn too_long(size: usize) -> bool
    ensures { result ≡ too_long size }
{
    0x100_0000 < size
}

// The sum of bytes, modulo 256.
pub fn sum(bytes: &[u8]) -> u8
    ensures { result ≡ bytes_total bytes.now % 256 }
{
    let mut s: u8 = 0;
    for byte in bytes {
        s = s.wrapping_add(*byte);
    }
    s
}

// The byte that makes them sum to zero.
pub fn checksum(bytes: &[u8]) -> u8
    ensures { result ≡ checksum_of bytes.now }
{
    0u8.wrapping_sub(sum(bytes))
}
