// Whether a description and its found address layout are well wired, so that the round trip's theorem applies. The test stands in
// premises, with the law that a slot passes just if it is well wired.
#![tactic(auto)]

mod board; // the pins of the board
mod apart; // lines on different pins

ghost use Rattle.std.specs.Prelude.{◌≡◌};
ghost use Rattle.premises.specs.WellWired.{select_pin};
ghost use Rattle.premises.specs.Wired.{lines_apart, select_apart, data_apart, data_lines_whole, select_one, in_addr_window, one_in_addr_window, wired};

use crate::apart::{apart, none_on};
use crate::board::unshared;
use addr_layout::layout::AddrLayout;
use addr_lines::first_pin;
use addr_lines::range::in_range;
use gpio::candidates::Candidates;
use listing::lines::{kind_pin, pin_candidates};
use slot::description::Description;

// The chip pin of the line that tells a Multi set's chips apart.
fn select_pin(d: Description) -> u8
    ensures { result ≡ select_pin d }
{
    let multi = d.multi;
    kind_pin(d, multi.select)
}

fn lines_apart(d: Description) -> bool
    ensures { result ≡ lines_apart d }
{
    let chip = d.chip0();
    let pins = chip.address_pins;
    apart(&pins, first_pin(d), in_range(d))
}

fn select_apart(d: Description) -> bool
    ensures { result ≡ select_apart d }
{
    let chip = d.chip0();
    let pins = chip.address_pins;
    none_on(&pins, first_pin(d), in_range(d), select_pin(d))
}

fn data_apart(d: Description) -> bool
    ensures { result ≡ data_apart d }
{
    let chip = d.chip0();
    let pins = chip.data_pins;
    apart(&pins, 0, chip.num_data_pins)
}

fn data_lines(d: Description) -> bool
    ensures { result ≡ data_lines_whole d }
{
    let chip = d.chip0();
    chip.num_data_pins as u32 == 8 * (d.word_bytes as u32)
}

fn select_one(d: Description) -> bool
    ensures { result ≡ select_one d }
{
    let gpios = pin_candidates(d, select_pin(d));
    !gpios.is_two()
}

fn in_window(a: AddrLayout, gpio: u8) -> bool
    ensures { result ≡ in_addr_window a gpio }
{
    let end = a.gpio_base as u32 + a.num_addr_pins as u32;
    (a.gpio_base <= gpio) & ((gpio as u32) < end)
}

// Whether one of a pin's candidates, and no other, is in the window.
fn one_inside(a: AddrLayout, gpios: Candidates) -> bool
    ensures { result ≡ one_in_addr_window a gpios }
{
    match gpios {
        Candidates::Absent => false,
        Candidates::One(g) => in_window(a, g),
        Candidates::Two(g, h) => {
            let first = in_window(a, g);
            let second = in_window(a, h);
            (first | second) & (!first | !second | (g == h))
        }
    }
}

// Whether the round trip's theorem applies to a slot with this address layout.
pub fn well_wired(d: Description, a: AddrLayout) -> bool
    ensures { result ≡ wired d a }
{
    let board = d.board;
    let set_type = d.set_type;
    let single = set_type.is_single();
    let multi = set_type.is_multi();
    let lines = unshared(board) & lines_apart(d) & (!multi | select_apart(d));
    let data = lines & data_apart(d) & data_lines(d);
    let select = data & (!multi | select_one(d)) & (!multi | (d.num_qualifiers == 0));
    let x1 = board.x1;
    let x2 = board.x2;
    let x1_in = one_inside(a, x1);
    let x2_in = one_inside(a, x2);
    select & (single | x1_in) & (single | (!(3 <= d.num_chips) | x2_in))
}
