// What a sound text says, stored in a chip.
ghost use Rattle.std.specs.Prelude.{◌≡◌, length};
ghost use Rattle.lists.specs.Tab.{tab};
ghost use Rattle.laid_bytes.specs.Laid.{laid};
ghost use Rattle.hex_record.specs.Record.{data_byte, line_fault};
ghost use Rattle.hex_read.specs.Lines.{lines_of};
ghost use Rattle.hex_read.specs.Read.{stored, stored_by};
ghost use Rattle.hex_read.specs.Design.Places.{DataFits, AllSound};

use crate::lines::first_line;
use hex_record::digits::byte_at;
use hex_record::{address, count, is_data, upper_after};

// Stores a record's first n data bytes from a place on.
fn put_data(line: &[u8], chip: &mut [u8], at: usize, n: usize)
    requires { DataFits line.now chip.old at n }
    ensures { chip.new ≡ laid chip.old at (tab n (data_byte line.now)) }
{
    for k in 0..n {
        chip[at + k] = byte_at(line, k + 4);
    }
}

// Stores what a sound record has.
fn store_line(line: &[u8], upper: u32, chip: &mut [u8])
    requires { line_fault (length chip.old) upper line.now ≡ None }
    ensures { chip.new ≡ stored_by upper line.now chip.old }
{
    if is_data(line) {
        put_data(line, chip, address(line, upper), count(line));
    }
}

// Stores what the records of a sound text have.
pub fn store(text: &[u8], chip: &mut [u8])
    requires { AllSound (length chip.old) 0 (lines_of text.now) }
    ensures { chip.new ≡ stored 0 (lines_of text.now) chip.old }
{
    let mut rest = text;
    let mut upper: u32 = 0;
    // What is left gets shorter by a line, however long: no index is counted.
    while 0 < rest.len() {
        let first = first_line(rest);
        let end = first.end;
        let next = first.next;
        let record = &rest[..end];
        store_line(record, upper, chip);
        upper = upper_after(record, upper);
        rest = &rest[next..];
    }
}
