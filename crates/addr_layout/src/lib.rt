// The address search: which GPIOs the address lines of a slot take, so that one PIO window holds them and the table that
// they index is the smallest.
#![tactic(auto)]

pub mod layout; // the layout
mod layouts; // the layout that a choice makes

ghost use Rattle.std.specs.Prelude.{◌≡◌};
ghost use Rattle.addr_layout.specs.Search.{addr_best, addr_answer_of, addr_answer};
ghost use Rattle.addr_layout.specs.Design.Laying.{SearchIn};

use addr_choices::{best, every_choice};
use domain::description::description_in;
use layout::AddrLayout;
use listing::Listing;
use refusal::Refusal;
use slot::description::Description;

// The search over all choices.
fn search(d: Description, l: Listing, bits: u32) -> Result<AddrLayout, Refusal>
    requires { SearchIn d l bits }
    ensures { result ≡ addr_answer_of d (addr_best d) }
{
    let every = every_choice(d);
    match best(every, l, bits) {
        None => Err(Refusal::NoValidLayout),
        Some(found) => Ok(layouts::laid_out(d, every, l, found)),
    }
}

// The layout with the lowest score, the earliest choice among equals, or the refusal.
pub fn derive_addr_layout(d: Description) -> Result<AddrLayout, Refusal>
    ensures { result ≡ addr_answer d }
{
    if !description_in(d) {
        return Err(Refusal::OutOfDomain);
    }
    let l = addr_lines::list(d);
    let bits = listing::choice_bits(l);
    if 16 < bits {
        return Err(Refusal::OutOfDomain);
    }
    match listing::first_fault(l) {
        Some(fault) => Err(fault),
        None => search(d, l, bits),
    }
}
