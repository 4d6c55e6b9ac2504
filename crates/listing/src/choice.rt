// What a choice number makes of a list of pins: each two-candidate pin takes the lowest bit of what the pins before it
// left of the number.
ghost use Rattle.std.specs.Prelude.{◌≡◌, cond, ◌≤◌, ltb, get_or};
ghost use Rattle.lists.specs.Tab.{tab};
ghost use Rattle.listing.specs.Design.Packed.{list_of};
ghost use Rattle.listing.specs.Choice.{chosen, left_by, gpio_at};
ghost use Rattle.listing.specs.Design.Parts.{in_part};

use crate::Listing;
use gpio::candidates::Candidates;

// A pin's GPIO under a choice, and what is left of the choice for the pins after it.
#[derive(Clone, Copy)]
pub struct Picked {
    pub gpio: u8,
    pub rest: u32,
}

// What a pin with these candidates takes of what is left of a choice number.
pub fn pick(gpios: Candidates, rest: u32) -> Picked
    ensures { result ≡ record { gpio = chosen gpios rest; rest = left_by gpios rest } }
{
    match gpios {
        Candidates::Absent => Picked { gpio: 0, rest },
        Candidates::One(g) => Picked { gpio: g, rest },
        Candidates::Two(g, h) => {
            if rest % 2 == 0 {
                Picked {
                    gpio: g,
                    rest: rest / 2,
                }
            } else {
                Picked {
                    gpio: h,
                    rest: rest / 2,
                }
            }
        }
    }
}

// Whether a choice bit is in one part of the number: below `split` if `low`, else from it on.
pub fn in_part(low: bool, split: u32, bit: u32) -> bool
    ensures { result ≡ in_part low split bit }
{
    let below = bit < split;
    if low { below } else { !below }
}

// The GPIO of each pin under a choice; 0 past the list's end.
pub fn resolve(l: Listing, choice: u32) -> [u8; 30]
    requires { l.count ≤ 30 }
    ensures { result ≡ tab 30 (λ k. gpio_at (list_of l) choice k) }
{
    let count = l.count;
    let mut out = [0u8; 30];
    let mut rest = choice;
    for k in 0..count {
        let packed = l.pins[k];
        let pin = packed.listed();
        let gpios = pin.gpios;
        let picked = pick(gpios, rest);
        out[k] = picked.gpio;
        rest = picked.rest;
    }
    out
}

// The GPIO of a line that is there; 0 past the lines.
pub fn gpio_if(there: bool, g: u8) -> u8
    ensures { result ≡ cond there g 0 }
{
    if there { g } else { 0 }
}

// The GPIOs of so many lines, 0 past them.
pub fn first_gpios<const N: usize>(all: [u8; 30], lines: usize) -> [u8; N]
    requires { N ≤ 30 }
    ensures { result ≡ tab N (λ k. cond (ltb k lines) (get_or all k 0) 0) }
{
    let mut out = [0u8; N];
    for k in 0..N {
        out[k] = gpio_if(k < lines, all[k]);
    }
    out
}
