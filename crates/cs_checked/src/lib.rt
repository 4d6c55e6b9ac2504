// The first fault of the pins that the select and data search needs: of the data pins, then of the select pins in the order in
// which theirs answer.
#![tactic(auto)]

ghost use Rattle.std.specs.Prelude.{◌≡◌, false, ◌++◌, ◌≤◌};
ghost use Rattle.slot.specs.Description.{is_multi};
ghost use Rattle.listing.specs.Design.Packed.{list_of};
ghost use Rattle.cs_pins.specs.Pins.{numbered};
ghost use Rattle.cs_checked.specs.Checked.{ignored_listed, multi_checked};
ghost use Rattle.cs_checked.specs.Design.Selects.{MultiLinesIn, CheckedIn, pins_fault};

use cs_pins::{kind_listed, list_data, push_commoned};
use listing::{Listing, first_fault};
use lists::array::entry;
use refusal::Refusal;
use slot::description::Description;

// The list, with the ignored lines.
fn push_ignored(d: Description, before: Listing) -> Listing
    requires { (before.count ≤ 7) × (d.multi.num_ignored ≤ 6) }
    ensures { (list_of result ≡ list_of before ++ ignored_listed d) × (result.count ≤ 13) }
{
    let multi = d.multi;
    let kinds = multi.ignored;
    let count = multi.num_ignored as usize;
    let at = before.count;
    let mut pins = before.pins;
    for k in 0..count {
        pins[at + k] = kind_listed(d, entry(&kinds, k));
    }
    Listing {
        pins,
        count: at + count,
    }
}

// What a Multi set asks for: select, commoned and ignored lines, X1 and X2.
fn check_multi(d: Description) -> Listing
    requires { MultiLinesIn d }
    ensures { (list_of result ≡ multi_checked d) × (result.count ≤ 30) }
{
    let multi = d.multi;
    let select = listing::push(listing::none(), kind_listed(d, multi.select));
    let lines = push_ignored(d, push_commoned(d, select));
    listing::push_x(lines, d.board, 2 <= d.num_chips, 3 <= d.num_chips)
}

// The first fault in Single and Banked: the numbered pins stand in the order in which they answer. That no line selects is the
// last fault of all.
fn active_fault(d: Description, l: Listing) -> Option<Refusal>
    requires { (l.count ≤ 30) × (list_of l ≡ numbered d) × (is_multi d.set_type ≡ false) }
    ensures { result ≡ pins_fault d }
{
    let chip = d.chip0();
    let no_line = l.count <= chip.num_data_pins as usize;
    first_fault(l).or(no_line.then_some(Refusal::NoSelectLine))
}

// The first fault of the pins that are checked; `l` has those that are numbered.
pub fn pins_fault(d: Description, l: Listing) -> Option<Refusal>
    requires { CheckedIn d l }
    ensures { result ≡ pins_fault d }
{
    let set_type = d.set_type;
    if set_type.is_multi() {
        return first_fault(list_data(d)).or(first_fault(check_multi(d)));
    }
    active_fault(d, l)
}
