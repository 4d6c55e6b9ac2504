// A text's first fault.
ghost use Rattle.std.specs.Prelude.{◌≡◌};
ghost use Rattle.hex_read.specs.Lines.{lines_of};
ghost use Rattle.hex_read.specs.Read.{behind_end, verdict_of};

use crate::lines::first_line;
use hex_record::{is_end, line_fault, upper_after};
use refusal::Refusal;

// The first fault of a text that is not sound: the line that has it, from 1, and what it is refused for.
#[derive(Clone, Copy)]
pub struct Fault {
    pub line: usize,
    pub why: Refusal,
}

// What a text comes to by what stands behind its end record, from line number `line` on.
fn behind_end(rest: &[u8], line: usize) -> Result<(), Fault>
    ensures { result ≡ behind_end line (lines_of rest.now) }
{
    if 0 < rest.len() {
        return Err(Fault {
            line,
            why: Refusal::BadRecord,
        });
    }
    Ok(())
}

// Judges a text line by line, for a chip of `size` bytes.
pub fn judge(text: &[u8], size: usize) -> Result<(), Fault>
    ensures { result ≡ verdict_of text.now size }
{
    let mut rest = text;
    let mut line: usize = 1;
    let mut upper: u32 = 0;
    // What is left gets shorter by a line, however long: no index is counted.
    while 0 < rest.len() {
        let first = first_line(rest);
        let end = first.end;
        let next = first.next;
        let record = &rest[..end];
        if let Some(why) = line_fault(record, upper, size) {
            return Err(Fault { line, why });
        }
        rest = &rest[next..];
        line += 1;
        if is_end(record) {
            return behind_end(rest, line);
        }
        upper = upper_after(record, upper);
    }
    Err(Fault {
        line,
        why: Refusal::BadRecord,
    })
}
