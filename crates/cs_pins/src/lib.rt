// The pins that the select and data search numbers: chip 0's data pins, then its select lines with X1 and X2, then the commoned
// lines of a Multi set.
#![tactic(auto)]

ghost use Rattle.std.specs.Prelude.{◌≡◌, ◌++◌, ◌+◌, ◌≤◌, get_or};
ghost use Rattle.slot.specs.Description.{chip0};
ghost use Rattle.listing.specs.Design.Packed.{listed_by, list_of};
ghost use Rattle.cs_pins.specs.Pins.{pin_listed, data_listed, active, active_listed, kind_listed, select_listed, multi_commoned, numbered, cs_search_in};
ghost use Rattle.cs_pins.specs.Design.Numbered.{NumberedIn, NumberedBy};

use control::cs_config::line_ignored;
use domain::chip::{control_line, kind_at};
use domain::description::description_in;
use gpio::candidates::Candidates;
use listing::Listing;
use listing::lines::{commoned_kind, kind_pin, pin_candidates};
use listing::packed::{NO_SELECT_LINE, Packed, UNMAPPED_PIN, pack};
use lists::array::{entry, one_if};
use slot::description::Description;
use slot::kinds::CS4;

// A chip pin; one without GPIO or off the socket is a fault.
fn pin_listed(d: Description, pin: u8) -> Packed
    ensures { listed_by result ≡ pin_listed d pin }
{
    let gpios = pin_candidates(d, pin);
    pack(gpios, UNMAPPED_PIN, pin)
}

fn data_pin(d: Description, k: usize) -> u8
    ensures { result ≡ get_or (chip0 d).data_pins k 0 }
{
    let chip = d.chip0();
    let pins = chip.data_pins;
    entry(&pins, k)
}

// The data pins.
pub fn list_data(d: Description) -> Listing
    requires { (chip0 d).num_data_pins ≤ 16 }
    ensures { (list_of result ≡ data_listed d) × (result.count ≤ 16) }
{
    let chip = d.chip0();
    let count = chip.num_data_pins as usize;
    let none = listing::none();
    let mut pins = none.pins;
    for k in 0..count {
        pins[k] = pin_listed(d, data_pin(d, k));
    }
    Listing { pins, count }
}

// Whether a control line selects the chip: a named line that its setting does not ignore.
pub fn line_active(d: Description, k: usize) -> bool
    ensures { result ≡ active d k }
{
    let chip = d.chip0();
    let config = d.cs_config;
    let kind = kind_at(chip.control, k);
    (kind <= CS4) & !line_ignored(kind, config)
}

// The list, with the lines that select the chip in Single and Banked.
fn list_active(d: Description, before: Listing) -> Listing
    requires { (before.count ≤ 16) × ((chip0 d).control.count ≤ 8) }
    ensures { (list_of result ≡ list_of before ++ active_listed d (chip0 d).control.count) × (result.count ≤ 24) }
{
    let chip = d.chip0();
    let lines = chip.control;
    let count = lines.count as usize;
    let mut pins = before.pins;
    let mut n = before.count;
    for k in 0..count {
        let line = control_line(lines, k);
        pins[n] = pin_listed(d, line.pin);
        // The next line takes the place of one that does not select.
        n += one_if(line_active(d, k)) as usize;
    }
    Listing { pins, count: n }
}

// Chip 0's line of a kind; one that is not on the chip is a fault.
pub fn kind_listed(d: Description, kind: u8) -> Packed
    ensures { listed_by result ≡ kind_listed d kind }
{
    let pin = kind_pin(d, kind);
    if pin == 0 {
        return pack(Candidates::Absent, NO_SELECT_LINE, 0);
    }
    pin_listed(d, pin)
}

// The list, with the select lines, X1 and X2.
fn list_selects(d: Description, before: Listing) -> Listing
    requires { (before.count ≤ 16) × ((chip0 d).control.count ≤ 8) }
    ensures { (list_of result ≡ list_of before ++ select_listed d) × (result.count ≤ 24) }
{
    let board = d.board;
    let set_type = d.set_type;
    let multi = d.multi;
    if set_type.is_multi() {
        let with_select = listing::push(before, kind_listed(d, multi.select));
        return listing::push_x(with_select, board, 2 <= d.num_chips, 3 <= d.num_chips);
    }
    list_active(d, before)
}

// The list, with the commoned lines.
pub fn push_commoned(d: Description, selects: Listing) -> Listing
    requires { (selects.count ≤ 24) × (d.multi.num_commoned ≤ 6) }
    ensures { (list_of result ≡ list_of selects ++ multi_commoned d) × (result.count ≤ selects.count + 6) }
{
    let multi = d.multi;
    let count = multi.num_commoned as usize;
    let at = selects.count;
    let mut pins = selects.pins;
    for k in 0..count {
        pins[at + k] = kind_listed(d, commoned_kind(d, k));
    }
    Listing {
        pins,
        count: at + count,
    }
}

// All the pins that the search numbers.
fn list(d: Description) -> Listing
    requires { NumberedIn d }
    ensures { (list_of result ≡ numbered d) × (result.count ≤ 30) }
{
    let set_type = d.set_type;
    let selects = list_selects(d, list_data(d));
    let has_commoned = set_type.is_multi();
    if has_commoned {
        return push_commoned(d, selects);
    }
    selects
}

// Whether the select search takes the description, the layout handed in aside; if so the pins that it numbers, and how many
// bits their choice number has.
#[derive(Clone, Copy)]
pub struct Numbering {
    pub in_domain: bool,
    pub list: Listing,
    pub bits: u32,
}

// The pins of a description in the domain, numbered once for all that the search does with them.
pub fn number_pins(d: Description) -> Numbering
    ensures { NumberedBy d result }
{
    if !description_in(d) {
        return Numbering {
            in_domain: false,
            list: listing::none(),
            bits: 0,
        };
    }
    let list = list(d);
    let bits = listing::choice_bits(list);
    Numbering {
        in_domain: bits <= 16,
        list,
        bits,
    }
}

// Whether the select search takes the description, the layout handed in aside.
pub fn in_domain(d: Description) -> bool
    ensures { result ≡ cs_search_in d }
{
    let numbering = number_pins(d);
    numbering.in_domain
}
