// Whether two values are the same: candidates, set kinds, GPIOs; and whether the X pins of a slot and of a board are.
#![tactic(auto)]

ghost use Rattle.std.specs.Prelude.{◌≡◌};
ghost use Rattle.premises.specs.Given.{x_pins_as};
ghost use Rattle.premises.specs.Same.{is_absent, is_one, is_both, same_candidates, is_roms, is_at, same_to};

use gpio::candidates::Candidates;
use lists::array::entry;
use slot::description::{ChipSetType, Description};
use stored_slot::stored::{SlotType, StoredSlot};

fn is_absent(c: Candidates) -> bool
    ensures { result ≡ is_absent c }
{
    match c {
        Candidates::Absent => true,
        Candidates::One(_) => false,
        Candidates::Two(_, _) => false,
    }
}

fn is_one(c: Candidates, g: u8) -> bool
    ensures { result ≡ is_one c g }
{
    match c {
        Candidates::Absent => false,
        Candidates::One(a) => a == g,
        Candidates::Two(_, _) => false,
    }
}

fn is_both(c: Candidates, g: u8, h: u8) -> bool
    ensures { result ≡ is_both c g h }
{
    match c {
        Candidates::Absent => false,
        Candidates::One(_) => false,
        Candidates::Two(a, b) => (a == g) & (b == h),
    }
}

// Whether two pins have the same candidates. The derived `==` of an enum whose variants have fields was tried: that it is this test did not
// close.
fn same_candidates(c: Candidates, other: Candidates) -> bool
    ensures { result ≡ same_candidates c other }
{
    match c {
        Candidates::Absent => is_absent(other),
        Candidates::One(g) => is_one(other, g),
        Candidates::Two(g, h) => is_both(other, g, h),
    }
}

// Whether the X pins are those of the board.
pub fn x_pins_as(d: Description, s: StoredSlot) -> bool
    ensures { result ≡ x_pins_as d s }
{
    let board = d.board;
    let x1 = s.x1;
    let x2 = s.x2;
    let board_x1 = board.x1;
    let board_x2 = board.x2;
    same_candidates(x1, board_x1) & same_candidates(x2, board_x2)
}

// Whether a slot holds ROMs in a set of this kind.
pub fn is_roms(slot: SlotType, t: ChipSetType) -> bool
    ensures { result ≡ is_roms slot t }
{
    match slot {
        SlotType::Unknown => false,
        SlotType::Plugin => false,
        SlotType::Roms(u) => u == t,
    }
}

// Whether a line is at a GPIO.
pub fn is_at(line: Option<u8>, g: u32) -> bool
    ensures { result ≡ is_at line g }
{
    match line {
        None => false,
        Some(h) => h as u32 == g,
    }
}

// Whether two lists have the same first n entries.
pub fn same_to(list: &[u8], other: &[u8], n: u8) -> bool
    ensures { result ≡ same_to n list.now other.now }
{
    let mut ok = true;
    for k in 0..n {
        let x = entry(list, k as usize);
        let y = entry(other, k as usize);
        ok = ok & (x == y);
    }
    ok
}
