// The lent words and their marks: cleared, and what the marks say once all entries are read.
#![tactic(auto)]

ghost use Rattle.std.specs.Prelude.{◌≡◌, ◌++◌, ◌*◌, eqb, get_or, drop, replicate};
ghost use Rattle.lists.specs.First.{first_where};
ghost use Rattle.lent_buffers.specs.Design.Buffers.{kept};
ghost use Rattle.entry_words.specs.Design.Lent.{Room};
ghost use Rattle.marked_words.specs.Design.Served.{served_by};

use entry_words::{Outcome, Reading};
use lent_buffers::{fill, first_missing};

// Clears the words and their marks.
pub fn clear_both(r: Reading, output: &mut [u8], marks: &mut [u8])
    requires { Room r output.old marks.old }
    ensures output_after { output.new ≡ replicate (r.words * r.word_bytes) 0
        ++ drop (r.words * r.word_bytes) output.old }
    ensures marks_after { marks.new ≡ replicate r.words 0 ++ drop r.words marks.old }
{
    let words = r.words as usize;
    fill(output, words * r.word_bytes as usize, 0);
    fill(marks, words, 0);
}

// What the marks say once no entry disagrees.
pub fn served(r: Reading, output: &mut [u8], marks: &mut [u8]) -> Outcome
    requires { Room r output.old marks.old }
    ensures { kept result output.new marks.new
        ≡ served_by r.word_bytes r.words output.old marks.old
        (first_where r.words (λ f. eqb (get_or marks.old f 0) 0)) }
{
    let f = first_missing(marks, r.words);
    if f < r.words {
        clear_both(r, output, marks);
        return Outcome::Missing(f);
    }
    Outcome::Whole
}
