// Whether the lent buffers have the room that read-back needs. The test stands in premises, with its law.
#![tactic(auto)]

ghost use Rattle.std.specs.Prelude.{◌≡◌, ◌*◌, ◌^◌, ◌≤◌, ◌<◌, min};
ghost use Rattle.build_wiring.specs.Counts.{word_count};
ghost use Rattle.premises.specs.Room.{chip_words, words};
ghost use Rattle.premises.specs.Given.{roomy};

use addr_layout::layout::AddrLayout;
use build_args::images::chip_size;
use slot::description::Description;

// How many words chip k has; none where a word has no bytes.
fn word_count(d: Description, k: u8) -> u64
    ensures value { result ≡ word_count d k }
    ensures upper_bound { result < 2 ^ 32 }
{
    if d.word_bytes == 0 {
        return 0;
    }
    chip_size(d, k) as u64 / d.word_bytes as u64
}

// How many words n lines reach, or 2^32, which no chip has.
fn reached(n: u8) -> u64
    ensures { result ≡ 2 ^ min n 32 }
{
    if n < 32 {
        return 1u64 << n;
    }
    0x1_0000_0000
}

// How many words of chip k come back.
fn chip_words(d: Description, a: AddrLayout, k: u8) -> u64
    ensures value { result ≡ chip_words d a k }
    ensures upper_bound { result < 2 ^ 32 }
{
    u64::min(word_count(d, k), reached(a.num_lines))
}

// How many words come back of all chips.
fn all_words(d: Description, a: AddrLayout) -> u64
    ensures value { result ≡ words d a }
    ensures upper_bound { result ≤ 255 * 2 ^ 32 }
{
    let n = d.num_chips;
    let mut words: u64 = 0;
    for k in 0..n {
        words = words + chip_words(d, a, k);
    }
    words
}

// Whether an output and marks of so many bytes have room for them.
pub fn has_room(d: Description, a: AddrLayout, output: usize, marks: usize) -> bool
    ensures { result ≡ roomy d a output marks }
{
    let words = all_words(d, a);
    (words * d.word_bytes as u64 <= output as u64) & (words <= marks as u64)
}
