// Whether an override forces a GPIO of the address window.
#![tactic(auto)]

ghost use Rattle.std.specs.Prelude.{◌≡◌};
ghost use Rattle.premises.specs.Given.{forces, nothing_forced};

use addr_layout::layout::AddrLayout;
use lists::array::entry;
use stored_slot::stored::{FORCE_HIGH, FORCE_LOW, StoredSlot};
use stored_slot::window::within;

// Whether one override does: its GPIO is below 64, and its kind above it.
fn forces(a: AddrLayout, over: u8) -> bool
    ensures { result ≡ forces a over }
{
    let kind = over / 64;
    let gpio = (over % 64) as u32;
    let inside = within(a.gpio_base as u32, a.num_addr_pins as u32, gpio);
    inside & ((kind == FORCE_LOW) | (kind == FORCE_HIGH))
}

// Whether no override does.
pub fn nothing_forced(a: AddrLayout, s: StoredSlot) -> bool
    ensures { result ≡ nothing_forced a s }
{
    let overrides = s.overrides;
    let n = s.num_overrides;
    let mut ok = true;
    for k in 0..n {
        let over = entry(&overrides, k as usize);
        ok = ok & !forces(a, over);
    }
    ok
}
