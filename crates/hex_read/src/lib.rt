// An Intel HEX text read into a chip's bytes. The text is judged to its end before anything is stored: a refusal writes nothing.
#![tactic(auto)]

mod judge; // the first fault
mod lines; // where lines begin and end
mod store; // what a sound text says

ghost use Rattle.std.specs.Prelude.{◌≡◌};
ghost use Rattle.hex_read.specs.Read.{read_as, read_of, fault_line};

use crate::judge::judge;
use crate::store::store;
use hex_base::too_long;
use refusal::Refusal;

// Reads a text into a chip: each byte that a record names, and hex FF elsewhere.
pub fn read_hex(text: &[u8], chip: &mut [u8]) -> Result<(), Refusal>
    ensures { read_as result chip.new ≡ read_of text.now chip.old }
{
    if too_long(chip.len()) {
        return Err(Refusal::OutOfDomain);
    }
    if let Err(fault) = judge(text, chip.len()) {
        return Err(fault.why);
    }
    chip.fill(255);
    store(text, chip);
    Ok(())
}

// The line, from 1, of the first record that a chip of `size` bytes cannot be read from; 0 where there is none.
pub fn fault_line(text: &[u8], size: usize) -> usize
    ensures { result ≡ fault_line text.now size }
{
    if too_long(size) {
        return 0;
    }
    match judge(text, size) {
        Err(fault) => fault.line,
        Ok(()) => 0,
    }
}
