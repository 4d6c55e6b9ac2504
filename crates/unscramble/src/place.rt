// A word's ROM and address, of words counted through all ROMs.
ghost use Rattle.std.specs.Prelude.{◌≡◌};
ghost use Rattle.unscramble.specs.Design.Place.{word_rom, word_address, outcome_fault};

use entry_words::Outcome;
use lists::array::one_if;
use refusal::Refusal;
use rom_words::words_before;
use stored_slot::stored::StoredSlot;

// The ROM of a word: as many ROMs end before it.
fn rom_of(s: StoredSlot, f: u32) -> u8
    ensures { result ≡ word_rom s f }
{
    let n = s.num_roms;
    let mut rom: u8 = 0;
    for k in 0..n {
        rom = rom + one_if(words_before(s, k + 1) <= f as u64);
    }
    rom
}

// A word's address in its ROM.
fn address_of(s: StoredSlot, f: u32) -> u32
    ensures { result ≡ word_address s f }
{
    let before = words_before(s, rom_of(s, f));
    if (f as u64) < before {
        return 0;
    }
    (f as u64 - before) as u32
}

// What the outcome of all entries is refused for.
pub fn fault_of(s: StoredSlot, outcome: Outcome) -> Option<Refusal>
    ensures { result ≡ outcome_fault s outcome }
{
    match outcome {
        Outcome::Whole => None,
        Outcome::Disagrees(f) => {
            Some(Refusal::Inconsistent {
                rom: rom_of(s, f),
                addr: address_of(s, f),
            })
        }
        Outcome::Missing(f) => {
            Some(Refusal::Unserved {
                rom: rom_of(s, f),
                addr: address_of(s, f),
            })
        }
    }
}
