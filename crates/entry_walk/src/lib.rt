// Entries of a table back into words, entry by entry: row by row up to the first that disagrees, then what the marks say.
#![tactic(auto)]

mod maps; // what a number's bits at the positions of all maps come to
mod walk; // the entries in order

ghost use Rattle.std.specs.Prelude.{◌≡◌};
ghost use Rattle.entry_words.specs.Design.Reading.{word_by, value_by};
ghost use Rattle.lent_buffers.specs.Design.Buffers.{kept};
ghost use Rattle.entry_words.specs.Design.Collected.{collected_of};
ghost use Rattle.entry_words.specs.Design.Lent.{Lent};

use crate::walk::walk;
use entry_words::{Outcome, Reading};
use marked_words::{clear_both, served};

// Reads the entries in order, whatever they are for.
pub fn collect_all(
    r: Reading,
    stored: &[u8],
    entries: u32,
    output: &mut [u8],
    marks: &mut [u8],
) -> Outcome
    requires { Lent r stored.now output.old marks.old entries }
    ensures { kept result output.new marks.new
        ≡ collected_of r.word_bytes (word_by r) (value_by r stored.now) r.words entries output.old
        marks.old }
{
    clear_both(r, output, marks);
    match walk(r, stored, entries, output, marks) {
        Err(f) => {
            clear_both(r, output, marks);
            Outcome::Disagrees(f)
        }
        Ok(()) => served(r, output, marks),
    }
}
