// The pins that a search lists, in order: each with its candidate GPIOs and the refusal that answers where it has none.
#![tactic(auto)]

pub mod choice; // what a choice number makes of them
pub mod lines; // a chip's pins in the socket, and its control lines by kind
pub mod packed; // a listed pin in numbers

ghost use Rattle.std.specs.Prelude.{◌≡◌, [], ◌∷◌, ◌++◌, ◌+◌, ◌≤◌, ◌<◌};
ghost use Rattle.listing.specs.Listing.{candidates_at, x_listed, x_pins, two_listed, count, twos, first_fault};
ghost use Rattle.listing.specs.Design.Packed.{listed_by, list_of};

use gpio::candidates::Candidates;
use packed::{MISSING_X_PIN, Packed, pack};
use refusal::Refusal;
use slot::description::Board;

// A listed pin.
#[derive(Clone, Copy)]
pub struct Listed {
    pub gpios: Candidates,
    pub fault: Refusal,
}

// The listed pins: at most 26 of an address search, 30 of a select search.
#[derive(Clone, Copy)]
pub struct Listing {
    pub pins: [Packed; 30],
    pub count: usize,
}

// The candidates of a socket pin.
pub fn candidates_at(b: Board, socket_pin: u8) -> Candidates
    ensures { result ≡ candidates_at b socket_pin }
{
    if socket_pin < 1 {
        return Candidates::Absent;
    }
    let k = socket_pin as usize - 1;
    if 40 <= k {
        return Candidates::Absent;
    }
    let socket = b.socket;
    let pin = socket[k];
    pin.gpios
}

// X1, or any other number for X2.
pub fn x_listed(b: Board, x: u8) -> Packed
    ensures { listed_by result ≡ x_listed b x }
{
    let x1 = b.x1;
    let x2 = b.x2;
    if x == 1 {
        return pack(x1, MISSING_X_PIN, 1);
    }
    pack(x2, MISSING_X_PIN, 2)
}

// Nothing listed yet.
pub fn none() -> Listing
    ensures { (list_of result ≡ []) × (result.count ≡ 0) }
{
    let blank = Packed {
        candidates: 0,
        first: 0,
        second: 0,
        fault: 0,
        place: 0,
    };
    Listing {
        pins: [blank; 30],
        count: 0,
    }
}

// The list, with one pin more.
pub fn push(l: Listing, pin: Packed) -> Listing
    requires { l.count < 30 }
    ensures { (list_of result ≡ list_of l ++ (listed_by pin ∷ [])) × (result.count ≡ l.count + 1) }
{
    let mut pins = l.pins;
    let k = l.count;
    pins[k] = pin;
    Listing { pins, count: k + 1 }
}

// The list, with X1 where `one` asks for it and X2 where `both` does too.
pub fn push_x(l: Listing, b: Board, one: bool, both: bool) -> Listing
    requires { l.count ≤ 28 }
    ensures { (list_of result ≡ list_of l ++ x_pins b one both) × (result.count ≤ l.count + 2) }
{
    if !one {
        return l;
    }
    let with_x1 = push(l, x_listed(b, 1));
    if !both {
        return with_x1;
    }
    push(with_x1, x_listed(b, 2))
}

// 1 for a two-candidate pin, else 0.
pub fn bits(pin: Listed) -> u32
    ensures value { result ≡ count (two_listed pin) }
    ensures upper_bound { result ≤ 1 }
{
    let gpios = pin.gpios;
    if gpios.is_two() { 1 } else { 0 }
}

// How many bits a choice number has: one a two-candidate pin.
pub fn choice_bits(l: Listing) -> u32
    requires { l.count ≤ 30 }
    ensures value { result ≡ twos (list_of l) }
    ensures upper_bound { result ≤ 30 }
{
    let n = l.count;
    let mut sum: u32 = 0;
    for k in 0..n {
        let pin = l.pins[k];
        sum += bits(pin.listed());
    }
    sum
}

// The fault of the first listed pin without candidates. Pins that have some are passed by their number alone.
pub fn first_fault(l: Listing) -> Option<Refusal>
    requires { l.count ≤ 30 }
    ensures { result ≡ first_fault (list_of l) }
{
    let n = l.count;
    for k in 0..n {
        let pin = l.pins[k];
        if pin.candidates == 0 {
            let listed = pin.listed();
            let fault = listed.fault;
            return Some(fault);
        }
    }
    None
}
