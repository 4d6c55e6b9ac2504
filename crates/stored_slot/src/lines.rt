// The lines that pick a ROM: their GPIOs, and what they are refused for.
ghost use Rattle.std.specs.Prelude.{◌≡◌, cond, leb};
ghost use Rattle.slot.specs.declared.description.ChipSetType.TheVariants.{Multi};
ghost use Rattle.stored_slot.specs.Stored.{one_inside, x_inside};
ghost use Rattle.stored_slot.specs.Faults.{x_fault, x_faults, select_fault, pick_fault};
ghost use Rattle.stored_slot.specs.Words.{x_at, pick_gpio};

use crate::stored::StoredSlot;
use crate::window::{in_window, select_gpio};
use gpio::candidates::Candidates;
use refusal::Refusal;
use slot::description::ChipSetType;

// Whether just one of a pin's GPIOs is in the window.
fn one_inside(s: StoredSlot, pin: Candidates) -> bool
    ensures { result ≡ one_inside s pin }
{
    match pin {
        Candidates::Absent => false,
        Candidates::One(g) => in_window(s, g as u32),
        Candidates::Two(g, h) => {
            let first = in_window(s, g as u32);
            let second = in_window(s, h as u32);
            (first & !second) | (second & !first)
        }
    }
}

// The GPIO of a pin that is in the window; of two, the first that is, or the second.
fn x_inside(s: StoredSlot, pin: Candidates) -> u8
    ensures { result ≡ x_inside s pin }
{
    match pin {
        Candidates::Absent => 0,
        Candidates::One(g) => g,
        Candidates::Two(g, h) => {
            if in_window(s, g as u32) {
                return g;
            }
            h
        }
    }
}

// What X pin x is refused for.
fn x_fault(s: StoredSlot, x: u8, pin: Candidates) -> Option<Refusal>
    ensures { result ≡ x_fault s x pin }
{
    (!one_inside(s, pin)).then_some(Refusal::XPin(x))
}

// What X2 is refused for, which counts with three ROMs or more.
fn x2_fault(s: StoredSlot) -> Option<Refusal>
    ensures { result ≡ cond (leb 3 s.num_roms) (x_fault s 2 s.x2) None }
{
    let x2 = s.x2;
    if 3 <= s.num_roms {
        return x_fault(s, 2, x2);
    }
    None
}

// What the X pins are refused for, X1 first.
fn x_faults(s: StoredSlot) -> Option<Refusal>
    ensures { result ≡ x_faults s }
{
    let x1 = s.x1;
    x_fault(s, 1, x1).or(x2_fault(s))
}

// What the select line of a Multi slot is refused for.
fn select_fault(s: StoredSlot) -> Option<Refusal>
    ensures { result ≡ select_fault s }
{
    let cs = s.alg_cs;
    let gpio = select_gpio(s);
    let alg = (cs.alg != 0).then_some(Refusal::UnknownAlgorithm);
    alg.or(((255 < gpio) | !in_window(s, gpio)).then_some(Refusal::BadLayout))
}

// What the lines that pick are refused for.
pub fn pick_fault(s: StoredSlot, set_type: ChipSetType) -> Option<Refusal>
    ensures { result ≡ pick_fault s set_type }
{
    match set_type {
        ChipSetType::Single => None,
        ChipSetType::Banked => x_faults(s),
        ChipSetType::Multi => x_faults(s).or(select_fault(s)),
    }
}

// The GPIO of X1, or of X2 for any number but 0.
fn x_at(s: StoredSlot, k: u8) -> u8
    ensures { result ≡ x_at s k }
{
    let x1 = s.x1;
    let x2 = s.x2;
    if k == 0 {
        return x_inside(s, x1);
    }
    x_inside(s, x2)
}

// The GPIO of the k-th line that picks in a Multi slot: the select line, X1, X2.
fn multi_gpio(s: StoredSlot, k: u8) -> u32
    ensures { result ≡ pick_gpio s Multi k }
{
    if k == 0 {
        return select_gpio(s);
    }
    x_at(s, k - 1) as u32
}

// The GPIO of the k-th line that picks.
pub fn pick_gpio(s: StoredSlot, set_type: ChipSetType, k: u8) -> u32
    ensures { result ≡ pick_gpio s set_type k }
{
    match set_type {
        ChipSetType::Single => 0,
        ChipSetType::Banked => x_at(s, k) as u32,
        ChipSetType::Multi => multi_gpio(s, k),
    }
}
