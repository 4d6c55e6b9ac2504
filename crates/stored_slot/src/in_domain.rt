// Number 1 in a read-back: which stored slots it takes at all.
ghost use Rattle.std.specs.Prelude.{◌≡◌, ◌^◌, leb};
ghost use Rattle.lists.specs.Each.{each};
ghost use Rattle.stored_slot.specs.Stored.{rom_at, stored_in};

use crate::roms::rom_at;
use crate::stored::StoredSlot;

// Whether no ROM has more than 2^24 bytes.
fn sizes_in(s: StoredSlot) -> bool
    ensures { result ≡ each s.num_roms (λ k. leb (rom_at s k).chip_size (2 ^ 24)) }
{
    let n = s.num_roms;
    let mut ok = true;
    for k in 0..n {
        let rom = rom_at(s, k);
        ok = ok & (rom.chip_size <= 0x100_0000);
    }
    ok
}

// Whether a stored slot keeps to the domain.
pub fn stored_in(s: StoredSlot) -> bool
    ensures { result ≡ stored_in s }
{
    let x1 = s.x1;
    let x2 = s.x2;
    (s.num_overrides <= 64) & (x1.in_domain() & x2.in_domain()) & ((s.num_roms <= 4) & sizes_in(s))
}
