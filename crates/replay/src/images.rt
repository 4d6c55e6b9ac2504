// The images of a case, and the checksum of bytes.
ghost use Rattle.std.specs.Prelude.{◌<◌, ◌≤◌};

use case_numbers::case::number_at;
use lists::array::one_if;
use std::num::wrapping_add_u64;

// The most bytes of an image here.
const ROOM: u64 = 8192;

fn length(case: &[u64], chip: usize) -> u32
    requires { chip < 4 }
    ensures { result < 8192 }
{
    (number_at(case, 556 + 3 * chip) % ROOM) as u32
}

// Byte k of a number, low byte first.
fn byte_of(x: u32, k: usize) -> u8
    requires { k < 4 }
{
    ((x >> (8 * k as u32)) % 0x100) as u8
}

// Byte j of the spans' record. Chip k's bytes stand from k * 8192 on.
fn span_byte(case: &[u64], j: usize) -> u8
    requires { j < 48 }
{
    let chip = j / 12;
    let place = j % 12;
    if place == 0 {
        return one_if(number_at(case, 555 + 3 * chip) == 1);
    }
    if place < 4 {
        return 0;
    }
    if place < 8 {
        return byte_of(chip as u32 * 8192, place - 4);
    }
    byte_of(length(case, chip), place - 8)
}

// The record of the spans.
pub(crate) fn span_bytes(case: &[u64]) -> [u8; 48] {
    let mut out = [0u8; 48];
    for j in 0..48 {
        out[j] = span_byte(case, j);
    }
    out
}

// Byte n of an image.
fn image_byte(seed: u64, n: u64) -> u8 {
    let sum = (seed % 0x1_0000_0000 + n % 0x1_0000_0000) % 0x1_0000_0000;
    (sum * 2654435761 % 0x1_0000_0000 / 0x100_0000) as u8
}

fn set(images: &mut [u8], at: usize, byte: u8) {
    if at < images.len() {
        images[at] = byte;
    }
}

fn fill_one(images: &mut [u8], start: usize, seed: u64)
    requires { start ≤ 24576 }
{
    for n in 0..8192 {
        set(images, start + n, image_byte(seed, n as u64));
    }
}

// Writes the images; whether they have room.
pub(crate) fn fill(case: &[u64], images: &mut [u8]) -> bool {
    let mut ok = true;
    for k in 0..4 {
        fill_one(images, 8192 * k, number_at(case, 557 + 3 * k));
        ok = ok & (number_at(case, 556 + 3 * k) < ROOM);
    }
    ok
}

// By 1099511628211, which is 2^40 + 2^8 + 179, modulo 2^64.
fn times_prime(x: u64) -> u64 {
    let low = (x % 0x1_0000_0000) * 179;
    let high = ((x / 0x1_0000_0000) * 179) << 32;
    wrapping_add_u64(
        wrapping_add_u64(x << 40, x << 8),
        wrapping_add_u64(low, high),
    )
}

// FNV-1a.
pub(crate) fn checksum(bytes: &[u8]) -> u64 {
    let mut sum: u64 = 14695981039346656037;
    for k in 0..bytes.len() {
        sum = times_prime(sum ^ wide(bytes[k]));
    }
    sum
}

fn wide(x: u8) -> u64 {
    x as u64
}
