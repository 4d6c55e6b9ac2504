// The lines of a slot's layouts that pick a chip.
ghost use Rattle.std.specs.Prelude.{◌≡◌};
ghost use Rattle.slot.specs.declared.description.ChipSetType.TheVariants.{Multi};
ghost use Rattle.build_args.specs.Picks.{first_select, x_gpio, pick_of};
ghost use Rattle.build_args.specs.Faults.{picks_in};

use addr_layout::layout::AddrLayout;
use cs_data_layout::layout::CsDataLayout;
use picks::num_picks;
use picks::positions::x_position_in;
use slot::description::{ChipSetType, Description};

// The GPIO of the first select line.
pub fn first_select(c: CsDataLayout) -> Option<u8>
    ensures { result ≡ first_select c }
{
    let lines = c.select_lines;
    let first = lines[0];
    if c.num_select_lines == 0 {
        return None;
    }
    Some(first.gpio)
}

// X1, or X2 for any number but 0.
fn x_gpio(a: AddrLayout, k: u8) -> Option<u8>
    ensures { result ≡ x_gpio a k }
{
    if k == 0 {
        return a.x1_gpio;
    }
    a.x2_gpio
}

fn multi_pick(a: AddrLayout, c: CsDataLayout, k: u8) -> Option<u8>
    ensures { result ≡ pick_of Multi a c k }
{
    if k == 0 {
        return first_select(c);
    }
    x_gpio(a, k - 1)
}

// The GPIO of the k-th line that picks.
pub fn pick_of(set_type: ChipSetType, a: AddrLayout, c: CsDataLayout, k: u8) -> Option<u8>
    ensures { result ≡ pick_of set_type a c k }
{
    match set_type {
        ChipSetType::Single => None,
        ChipSetType::Banked => x_gpio(a, k),
        ChipSetType::Multi => multi_pick(a, c, k),
    }
}

// Whether each line that picks has a GPIO with a position.
pub fn picks_in(d: Description, a: AddrLayout, c: CsDataLayout) -> bool
    ensures { result ≡ picks_in d a c }
{
    let set_type = d.set_type;
    let n = num_picks(set_type, d.num_chips);
    let mut ok = true;
    for k in 0..n {
        ok = ok & x_position_in(a.gpio_base, pick_of(set_type, a, c, k));
    }
    ok
}
