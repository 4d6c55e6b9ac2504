// Where the words of a chip stand in the lent bytes.
ghost use Rattle.std.specs.Prelude.{◌≡◌, true, ℕ, ◌+◌, ◌*◌, ◌≤◌, ◌<◌, ◌^◌, length};
ghost use Rattle.std.specs.Int.Bits.{bit_and};
ghost use Rattle.words.specs.Words.{chip_word_from};
ghost use Rattle.table_fill.specs.Design.Entries.{raw_from, RawIn};
ghost use Rattle.table_fill.specs.Design.Rows.{ReadsBy, Pads};

use words::{ByteOrder, chip_word_at};

// A chip's words: where the first stands, how many there are, and what is read past them.
#[derive(Clone, Copy)]
pub struct Source {
    pub start: u32,
    // Words of the chip.
    pub count: u32,
    // Whether addresses past them read them again.
    pub mirrored: bool,
}

// What an address reads: a source for each value of the bits that pick, and the word where none stands.
#[derive(Clone, Copy)]
pub struct Chips {
    pub sources: [Source; 8],
    pub pad: u32,
}

// Word n of a source.
fn word_of(order: ByteOrder, images: &[u8], w: usize, s: Source, n: u32) -> u32
    requires { (w ≤ 2) × (s.start + n * w + w ≤ length images.now) }
    ensures value { result ≡ chip_word_from order w images.now (s.start + n * w) }
    ensures upper_bound { result < 2 ^ (8 * w) }
{
    chip_word_at(order, images, s.start as usize + n as usize * w, w)
}

// The word at an address of a source, or the pad word.
pub fn raw(order: ByteOrder, images: &[u8], w: usize, s: Source, pad: u32, n: u32) -> u32
    requires { RawIn images.now w s pad }
    ensures value { result ≡ raw_from order images.now w s pad n }
    ensures upper_bound { result < 2 ^ (8 * w) }
{
    if n < s.count {
        return word_of(order, images, w, s, n);
    }
    if s.mirrored {
        return word_of(order, images, w, s, n % s.count);
    }
    pad
}

// The bits of an address that tell the words of a source apart: where it is mirrored and its words are a power of two, the low ones, and
// else all.
pub fn mask_of(s: Source) -> u32
    ensures { ReadsBy s result }
{
    let bits = u32::trailing_zeros(s.count);
    if !s.mirrored | (31 < bits) {
        return 0xFFFFFFFF;
    }
    if s.count != 1u32 << bits {
        return 0xFFFFFFFF;
    }
    s.count - 1
}

// Whether each address up to the highest has a word in the source, by so many of its bits.
pub fn all_stand(s: Source, mask: u32, highest: u32) -> bool
    ensures { result ≡ true → (n : ℕ) → n ≤ highest → bit_and n mask < s.count }
{
    (highest < s.count) | (mask < s.count)
}

// Whether no address from the lowest on has one.
pub fn none_stand(s: Source, lowest: u32) -> bool
    ensures { result ≡ true → Pads s lowest }
{
    !s.mirrored & (s.count <= lowest)
}
