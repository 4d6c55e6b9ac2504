// Entries of a table back into words: each entry is for a word and says a value, and the first value of a word is kept.
#![tactic(auto)]

ghost use Rattle.std.specs.Prelude.{◌≡◌};
ghost use Rattle.entry_words.specs.Design.Reading.{word_by, value_by};
ghost use Rattle.lent_buffers.specs.Design.Buffers.{kept};
ghost use Rattle.entry_words.specs.Design.Collected.{collected_of};
ghost use Rattle.entry_words.specs.Design.Lent.{Lent};

use entry_walk::collect_all;
use entry_words::{Outcome, Reading};
use lent_buffers::fill;
use word_read::read_words;

// Reads the first entries of a table into words and their marks: word by word where it can, else entry by entry, so that what is at
// fault is found in one place.
pub fn collect(
    r: Reading,
    stored: &[u8],
    entries: u32,
    output: &mut [u8],
    marks: &mut [u8],
) -> Outcome
    requires { Lent r stored.now output.old marks.old entries }
    ensures { kept result output.new marks.new
        ≡ collected_of r.word_bytes (word_by r) (value_by r stored.now) r.words entries output.old
        marks.old }
{
    if read_words(r, stored, entries, output) {
        fill(marks, r.words as usize, 1);
        return Outcome::Whole;
    }
    collect_all(r, stored, entries, output, marks)
}
