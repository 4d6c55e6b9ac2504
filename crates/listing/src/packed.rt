// A listed pin in five numbers. A list of enums is copied piece by piece, since each leaves bytes unset; one of numbers is not.
ghost use Rattle.std.specs.Prelude.{◌≡◌};
ghost use Rattle.listing.specs.Listing.{listed};
ghost use Rattle.listing.specs.Design.Packed.{gpios_by, fault_by, listed_by};

use crate::Listed;
use gpio::candidates::Candidates;
use refusal::Refusal;

// The numbers of the refusals that a listed pin can have.
pub const NO_SELECT_LINE: u8 = 2;

pub const UNMAPPED_PIN: u8 = 3;

pub const MISSING_X_PIN: u8 = 4;

pub const NO_VALID_LAYOUT: u8 = 9;

// How many candidates the pin has, and which; the number of the refusal that answers where it has none, and its place.
#[derive(Clone, Copy)]
pub struct Packed {
    pub candidates: u8,
    pub first: u8,
    pub second: u8,
    pub fault: u8,
    pub place: u8,
}

// A pin with its candidates, and the number and place of its refusal.
pub fn pack(gpios: Candidates, fault: u8, place: u8) -> Packed
    ensures { listed_by result ≡ listed gpios (fault_by fault place) }
{
    match gpios {
        Candidates::Absent => Packed {
            candidates: 0,
            first: 0,
            second: 0,
            fault,
            place,
        },
        Candidates::One(g) => Packed {
            candidates: 1,
            first: g,
            second: 0,
            fault,
            place,
        },
        Candidates::Two(g, h) => Packed {
            candidates: 2,
            first: g,
            second: h,
            fault,
            place,
        },
    }
}

fn gpios(candidates: u8, first: u8, second: u8) -> Candidates
    ensures { result ≡ gpios_by candidates first second }
{
    if candidates == 0 {
        return Candidates::Absent;
    }
    if candidates == 1 {
        return Candidates::One(first);
    }
    Candidates::Two(first, second)
}

fn fault(number: u8, place: u8) -> Refusal
    ensures { result ≡ fault_by number place }
{
    if number == UNMAPPED_PIN {
        return Refusal::UnmappedPin(place);
    }
    if number == MISSING_X_PIN {
        return Refusal::MissingXPin(place);
    }
    if number == NO_SELECT_LINE {
        return Refusal::NoSelectLine;
    }
    if number == NO_VALID_LAYOUT {
        return Refusal::NoValidLayout;
    }
    Refusal::OutOfDomain
}

impl Packed {
    // The listed pin.
    pub fn listed(self) -> Listed
        ensures { result ≡ listed_by self }
    {
        let gpios = gpios(self.candidates, self.first, self.second);
        let fault = fault(self.fault, self.place);
        Listed { gpios, fault }
    }
}
