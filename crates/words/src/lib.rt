// Words of w bytes, read from bytes and written there, low byte first; and those of a chip, whose bytes are in the order of its dump.
#![tactic(auto)]

ghost use Rattle.std.specs.Prelude.{◌≡◌, ◌++◌, ◌+◌, ◌*◌, ◌%◌, ◌^◌, ◌≤◌, ◌<◌, length, take, drop};
ghost use Rattle.words.specs.declared.ByteOrder.TheVariants.{HighFirst};
ghost use Rattle.words.specs.Words.{word_from, bytes_of, pad_word, chip_word_from};

// Which byte of a word a dump has first.
#[derive(Clone, Copy)]
pub enum ByteOrder {
    LowFirst,
    HighFirst,
}

// A byte as a number that can be shifted past a byte's width.
fn wide(x: u8) -> u32
    ensures { (result ≡ x) × (result < 256) }
{
    x as u32
}

// The word of w bytes at a place. The highest byte is the last, so the bytes are taken from the end.
pub fn word_at(b: &[u8], at: usize, w: usize) -> u32
    requires { (w ≤ 2) × (at + w ≤ length b.now) }
    ensures value { result ≡ word_from w b.now at }
    ensures upper_bound { result < 2 ^ (8 * w) }
{
    let mut whole: u32 = 0;
    for k in (0..w).rev() {
        whole = wide(b[at + k]) + 256 * whole;
    }
    whole
}

// The word of w bytes at a place, high byte first.
fn high_word_at(b: &[u8], at: usize, w: usize) -> u32
    requires { (w ≤ 2) × (at + w ≤ length b.now) }
    ensures value { result ≡ chip_word_from HighFirst w b.now at }
    ensures upper_bound { result < 2 ^ (8 * w) }
{
    let mut value: u32 = 0;
    for k in 0..w {
        value = wide(b[at + k]) + 256 * value;
    }
    value
}

// The word of a chip at a place of its bytes, which are in an order.
pub fn chip_word_at(order: ByteOrder, b: &[u8], at: usize, w: usize) -> u32
    requires { (w ≤ 2) × (at + w ≤ length b.now) }
    ensures value { result ≡ chip_word_from order w b.now at }
    ensures upper_bound { result < 2 ^ (8 * w) }
{
    match order {
        ByteOrder::LowFirst => word_at(b, at, w),
        ByteOrder::HighFirst => high_word_at(b, at, w),
    }
}

fn low(x: u32) -> u8
    ensures { result ≡ x % 256 }
{
    (x % 256) as u8
}

// The w bytes of x at a place.
pub fn put_word(out: &mut [u8], at: usize, w: usize, x: u32)
    requires { at + w ≤ length out.old }
    ensures { out.new ≡ take at out.old ++ bytes_of w x ++ drop (at + w) out.old }
{
    let mut rest = x;
    for k in 0..w {
        out[at + k] = low(rest);
        rest = rest / 256;
    }
}

// The word whose bytes are all the pad byte.
pub fn pad_word(w: usize, pad: u8) -> u32
    requires { w ≤ 2 }
    ensures value { result ≡ pad_word w pad }
    ensures upper_bound { result < 2 ^ (8 * w) }
{
    let byte = wide(pad);
    let mut whole: u32 = 0;
    for k in 0..w {
        whole = byte + 256 * whole;
    }
    whole
}
