// The select and data search: which GPIOs the data lines and the select lines of a slot take, so that one PIO reads the
// selects and drives the data.
#![tactic(auto)]

pub mod layout; // the layout
mod sets; // the GPIOs that no choice changes
mod layouts; // the layout that a choice makes
mod earlier; // the refusals before any choice

ghost use Rattle.std.specs.Prelude.{◌≡◌};
ghost use Rattle.cs_data_layout.specs.Search.{cs_best, cs_data_answer_of, cs_data_answer};
ghost use Rattle.cs_data_layout.specs.Design.Given.{SearchIn};

use addr_layout::layout::AddrLayout;
use cs_choices::choices::{Fixed, best};
use cs_choices::nothing;
use cs_pins::{Numbering, number_pins};
use layout::{CsDataLayout, handed};
use refusal::Refusal;
use slot::description::Description;

// The search over all choices.
fn search(d: Description, h: AddrLayout, pins: Numbering) -> Result<CsDataLayout, Refusal>
    requires { SearchIn d h pins }
    ensures { result ≡ cs_data_answer_of d h (cs_best d h) }
{
    let chip = d.chip0();
    let set_type = d.set_type;
    let l = pins.list;
    let bits = pins.bits;
    let fixed = Fixed {
        multi: set_type.is_multi(),
        num_data: chip.num_data_pins as usize,
        excess: sets::excess_set(h),
        qualifiers: sets::qualifier_set(d, h),
    };
    match best(l, fixed, bits) {
        None => {
            let why = nothing::why(l, fixed, bits, sets::ignored_set(d));
            Err(why.unwrap_or(Refusal::NoValidLayout))
        }
        Some(found) => Ok(layouts::laid_out(d, h, l, fixed, found.choice)),
    }
}

// The layout with the lowest score, the earliest choice among equals, or the refusal.
pub fn derive_cs_data_layout(
    d: Description,
    addr_layout: Option<AddrLayout>,
) -> Result<CsDataLayout, Refusal>
    ensures { result ≡ cs_data_answer d addr_layout }
{
    let pins = number_pins(d);
    if !(pins.in_domain & earlier::given_in(d, addr_layout)) {
        return Err(Refusal::OutOfDomain);
    }
    match earlier::earlier(d, addr_layout, pins) {
        Some(why) => Err(why),
        None => search(d, handed(addr_layout), pins),
    }
}
