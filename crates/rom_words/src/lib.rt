// How many words of the ROMs are served.
#![tactic(auto)]

ghost use Rattle.std.specs.Prelude.{◌≡◌, ◌*◌, ◌^◌, ◌≤◌, min};
ghost use Rattle.stored_slot.specs.Words.{rom_words, words_before};

use stored_slot::roms::{listed, rom_at};
use stored_slot::stored::StoredSlot;
use stored_slot::window::word_bytes;

// How many words of ROM k are served: those that it has, as far as its lines reach.
pub fn rom_words(s: StoredSlot, k: u8) -> u64
    ensures value { result ≡ rom_words s k }
    ensures upper_bound { result ≤ 2 ^ 32 }
{
    let rom = rom_at(s, k);
    let gpios = rom.addr;
    let reached = 1u64 << listed(gpios);
    let stored = rom.chip_size as u64 / word_bytes(s) as u64;
    stored.min(reached)
}

// The words of the ROMs before ROM n.
pub fn words_before(s: StoredSlot, n: u8) -> u64
    ensures value { result ≡ words_before s n }
    ensures upper_bound { result ≤ n * 2 ^ 32 }
{
    let mut words: u64 = 0;
    for k in 0..n {
        words = words + rom_words(s, k);
    }
    words
}
