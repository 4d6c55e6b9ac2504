// The lent output and marks: filled, a word kept in them, and the first word without a mark.
#![tactic(auto)]

ghost use Rattle.std.specs.Prelude.{◌≡◌, ◌++◌, ◌≤◌, eqb, length, get_or, drop, replicate};
ghost use Rattle.lists.specs.First.{first_where};
ghost use Rattle.lent_buffers.specs.Design.Buffers.{WordIn, kept, keep_word};

use words::{put_word, word_at};

// Makes each of the first n bytes the same, by the slice's own `fill`: here is what it leaves of the whole buffer.
pub fn fill(buffer: &mut [u8], n: usize, byte: u8)
    requires { n ≤ length buffer.old }
    ensures { buffer.new ≡ replicate n byte ++ drop n buffer.old }
{
    buffer[..n].fill(byte);
}

// Keeps a value of word f where it has none yet. Whether it is the one kept.
pub fn keep(output: &mut [u8], marks: &mut [u8], w: usize, f: u32, value: u32) -> bool
    requires { WordIn w f output.old marks.old }
    ensures { kept result output.new marks.new
        ≡ keep_word w f value output.old marks.old }
{
    let k = f as usize;
    if marks[k] == 0 {
        put_word(output, k * w, w, value);
        marks[k] = 1;
        return true;
    }
    word_at(output, k * w, w) == value
}

// The lowest word without a mark; the number of words where each has one.
pub fn first_missing(marks: &[u8], words: u32) -> u32
    requires { words ≤ length marks.now }
    ensures { result ≡ first_where words (λ f. eqb (get_or marks.now f 0) 0) }
{
    for f in 0..words {
        if marks[f as usize] == 0 {
            return f;
        }
    }
    words
}
