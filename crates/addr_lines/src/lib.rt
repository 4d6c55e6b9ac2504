// The pins that the address search lists: chip 0's address lines in order, those past the table's reach too, then X1 and
// X2 where they pick a bank or a chip. An address line that overhangs the socket is fly-leaded to an X pin.
#![tactic(auto)]

pub mod range; // the lines that the table has an index for

ghost use Rattle.std.specs.Prelude.{◌≡◌, ◌≤◌};
ghost use Rattle.lists.specs.Tab.{tab};
ghost use Rattle.listing.specs.Listing.{count};
ghost use Rattle.listing.specs.Design.Packed.{listed_by, list_of};
ghost use Rattle.addr_lines.specs.Lines.{first_pin, lines, line_socket, is_off, off_before, fly_lead, overhanging, line_listed, addr_listed};

use gpio::candidates::Candidates;
use listing::Listing;
use listing::packed::{NO_VALID_LAYOUT, Packed, UNMAPPED_PIN, pack};
use lists::array::entry;
use slot::description::{Board, Description};

// The address pin of line 0: in 16-bit mode the data side serves address pin 0.
pub fn first_pin(d: Description) -> u8
    ensures value { result ≡ first_pin d }
    ensures upper_bound { result ≤ 1 }
{
    if d.word_bytes == 2 { 1 } else { 0 }
}

// How many address lines chip 0 has.
pub fn num_lines(d: Description) -> u8
    ensures { result ≡ lines d }
{
    let chip = d.chip0();
    let first = first_pin(d);
    let n = chip.num_address_pins;
    if n < first {
        return 0;
    }
    n - first
}

// The socket pin under the `n`-th address line.
fn line_socket(d: Description, n: usize) -> Option<u8>
    requires { n ≤ 24 }
    ensures { result ≡ line_socket d n }
{
    let chip = d.chip0();
    let pins = chip.address_pins;
    let pin = entry(&pins, first_pin(d) as usize + n);
    listing::lines::pin_socket(d, pin)
}

// 1 for a line off the socket, else 0.
fn off(s: Option<u8>) -> u32
    ensures value { result ≡ count (is_off s) }
    ensures upper_bound { result ≤ 1 }
{
    match s {
        Some(_) => 0,
        None => 1,
    }
}

// How many lines before the `n`-th overhang the socket.
fn off_before(d: Description, n: usize) -> u32
    requires { n ≤ 24 }
    ensures { result ≡ off_before d n }
{
    let mut passed: u32 = 0;
    for k in 0..n {
        passed += off(line_socket(d, k));
    }
    passed
}

// The X pin of an overhanging line: X1 for the first, X2 for the second.
fn fly_lead(b: Board, before: u32) -> Packed
    ensures { listed_by result ≡ fly_lead b before }
{
    if before == 0 {
        return listing::x_listed(b, 1);
    }
    if before == 1 {
        return listing::x_listed(b, 2);
    }
    pack(Candidates::Absent, NO_VALID_LAYOUT, 0)
}

// A line off the socket.
fn overhanging(d: Description, n: usize) -> Packed
    requires { n ≤ 24 }
    ensures { listed_by result ≡ overhanging d n }
{
    let board = d.board;
    let set_type = d.set_type;
    if set_type.is_single() {
        return fly_lead(board, off_before(d, n));
    }
    pack(Candidates::Absent, NO_VALID_LAYOUT, 0)
}

// The `n`-th address line.
fn line_listed(d: Description, n: usize) -> Packed
    requires { n ≤ 24 }
    ensures { listed_by result ≡ line_listed d n }
{
    let board = d.board;
    let s = line_socket(d, n);
    match s {
        Some(pin) => {
            let gpios = listing::candidates_at(board, pin);
            pack(gpios, UNMAPPED_PIN, pin)
        }
        None => overhanging(d, n),
    }
}

fn list_lines(d: Description) -> Listing
    requires { lines d ≤ 24 }
    ensures { (list_of result ≡ tab (lines d) (λ n. line_listed d n)) × (result.count ≡ lines d) }
{
    let count = num_lines(d) as usize;
    let none = listing::none();
    let mut pins = none.pins;
    for n in 0..count {
        pins[n] = line_listed(d, n);
    }
    Listing { pins, count }
}

// All the pins that the search lists.
pub fn list(d: Description) -> Listing
    requires { lines d ≤ 24 }
    ensures { (list_of result ≡ addr_listed d) × (result.count ≤ 26) }
{
    let board = d.board;
    let set_type = d.set_type;
    listing::push_x(
        list_lines(d),
        board,
        !set_type.is_single(),
        3 <= d.num_chips,
    )
}
