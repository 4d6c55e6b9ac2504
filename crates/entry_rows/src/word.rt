// Which word an entry is for.
ghost use Rattle.std.specs.Prelude.{◌≡◌, cond, ◌&&◌, ◌+◌, ◌≤◌, ltb, eqb};
ghost use Rattle.std.specs.Int.Bits.{bit_and};

use entry_words::Extent;

// Whether an index has the forced bits.
pub fn unforced(i: u32, forced: u32, forced_high: u32) -> bool
    ensures { result ≡ eqb (bit_and i forced) forced_high }
{
    (i & forced) == forced_high
}

// The word at an address of a ROM; the number of all words where it has none there, or where the entry does not count.
pub fn word_for(extent: Extent, counts: bool, address: u32, words: u32) -> u32
    requires { extent.start + extent.words ≤ words }
    ensures { result ≡ cond (counts && ltb address extent.words) (extent.start + address) words }
{
    if counts & (address < extent.words) {
        return extent.start + address;
    }
    words
}
