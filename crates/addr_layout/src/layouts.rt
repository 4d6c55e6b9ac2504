// The layout that a choice makes.
ghost use Rattle.std.specs.Prelude.{◌≡◌, cond, ◌≤◌, ◌/◌, ◌%◌, ltb, get_or};
ghost use Rattle.lists.specs.Tab.{tab};
ghost use Rattle.listing.specs.Design.Packed.{list_of};
ghost use Rattle.addr_layout.specs.Layouts.{line_gpio, addr_layout_of};
ghost use Rattle.addr_layout.specs.Design.Laying.{laid_from, Laying};

use crate::layout::AddrLayout;
use addr_choices::Spanning;
use listing::Listing;
use listing::choice::{first_gpios, resolve};
use search::Found;
use slot::description::Description;

fn x_gpio(used: bool, g: u8) -> Option<u8>
    ensures { result ≡ line_gpio used g }
{
    if used { Some(g) } else { None }
}

// The layout of resolved pins: the lines' GPIOs, then those of X1 and X2 where they pick a bank or a chip. A choice scores 1000 for each
// pin and its base on top, so that both are read from the score, and the pins are not gone through for their span again.
fn layout(score: u32, all: [u8; 30], one: bool, both: bool, lines: u8, used: u8) -> AddrLayout
    requires { (score / 1000 ≤ 255) × (score % 1000 ≤ 255) × (used ≤ lines) × (lines ≤ 24) }
    ensures { result ≡ laid_from (score % 1000) (score / 1000) (λ k. get_or all k 0) one both lines used }
{
    let n = lines as usize;
    AddrLayout {
        gpio_base: (score % 1000) as u8,
        num_addr_pins: (score / 1000) as u8,
        x1_gpio: x_gpio(one, all[n]),
        x2_gpio: x_gpio(both, all[n + 1]),
        gpios: first_gpios(all, n),
        num_lines: used,
        num_excess: lines - used,
    }
}

// The layout that a choice makes which fits.
pub fn laid_out(d: Description, every: Spanning, l: Listing, found: Found) -> AddrLayout
    requires { Laying d every l found.choice found.score }
    ensures { result ≡ addr_layout_of d (list_of l) found.choice }
{
    let used = every.in_range as u8;
    let all = every.lines as u8;
    let gpios = resolve(l, found.choice);
    let set_type = d.set_type;
    let one = !set_type.is_single();
    layout(found.score, gpios, one, one & (3 <= d.num_chips), all, used)
}
