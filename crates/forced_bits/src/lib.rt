// The bits that overrides force, as two masks: an index goes through just if it has the forced bits as they are forced.
#![tactic(auto)]

ghost use Rattle.std.specs.Prelude.{◌≡◌, cond, ◌&&◌, ◌||◌, ◌%◌, ◌/◌, ◌^◌, ◌<◌, eqb};
ghost use Rattle.stored_slot.specs.Stored.{names, stored_pins};
ghost use Rattle.forced_bits.specs.Design.Forced.{mask_of, forced_at, high_at};

use stored_slot::stored::{FORCE_HIGH, FORCE_LOW, StoredSlot};
use stored_slot::window::addr_base;

// Whether one before an entry names a GPIO by a kind, or the entry does.
fn names_it(entry: u8, kind: u8, gpio: u32, found: bool) -> bool
    ensures { result ≡ (found || (eqb (entry % 64) gpio && eqb (entry / 64) kind)) }
{
    found | (((entry % 64) as u32 == gpio) & (entry / 64 == kind))
}

// Whether an override names a GPIO by a kind. There may be fewer entries than n: those that are missing count as 0.
fn names(overrides: &[u8], n: u8, kind: u8, gpio: u32) -> bool
    ensures { result ≡ names n overrides.now kind gpio }
{
    let mut found = false;
    for k in 0..n {
        found = names_it(
            lists::array::entry(overrides, k as usize),
            kind,
            gpio,
            found,
        );
    }
    found
}

// Whether an override forces the bit at a position high.
fn high_at(s: StoredSlot, p: u8) -> bool
    ensures { result ≡ high_at s p }
{
    let overrides = s.overrides;
    names(
        &overrides,
        s.num_overrides,
        FORCE_HIGH,
        addr_base(s) + p as u32,
    )
}

// Whether one forces it at all.
fn forced_at(s: StoredSlot, p: u8) -> bool
    ensures { result ≡ forced_at s p }
{
    let overrides = s.overrides;
    let high = high_at(s, p);
    high | names(
        &overrides,
        s.num_overrides,
        FORCE_LOW,
        addr_base(s) + p as u32,
    )
}

fn bit_if(b: bool, p: u8) -> u32
    requires { p < 32 }
    ensures { result ≡ cond b (2 ^ p) 0 }
{
    if b {
        return 1u32 << p;
    }
    0
}

// Whether an override forces the bit at a position: high, or low too.
fn forces(s: StoredSlot, low_too: bool, p: u8) -> bool
    ensures { result ≡ cond low_too (forced_at s p) (high_at s p) }
{
    if low_too {
        return forced_at(s, p);
    }
    high_at(s, p)
}

fn mask(s: StoredSlot, low_too: bool) -> u32
    requires { stored_pins s < 32 }
    ensures { result ≡ mask_of (stored_pins s) (λ p. cond low_too (forced_at s p) (high_at s p)) }
{
    let addr = s.alg_addr;
    let n = addr.num_addr_pins;
    let mut mask: u32 = 0;
    for p in 0..n {
        mask = mask + bit_if(forces(s, low_too, p), p);
    }
    mask
}

// The index bits that are forced high.
pub fn forced_high(s: StoredSlot) -> u32
    requires { stored_pins s < 32 }
    ensures { result ≡ mask_of (stored_pins s) (high_at s) }
{
    mask(s, false)
}

// The index bits that are forced, low or high.
pub fn forced(s: StoredSlot) -> u32
    requires { stored_pins s < 32 }
    ensures { result ≡ mask_of (stored_pins s) (forced_at s) }
{
    mask(s, true)
}
