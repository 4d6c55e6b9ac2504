// Which chip a set's lines pick: how many lines pick, and the chip that their bits name. The build and read-back go by the same rules.
#![tactic(auto)]

pub mod positions; // where a line stands in an index or in an entry

ghost use Rattle.std.specs.Prelude.{◌≡◌, ◌≤◌};
ghost use Rattle.slot.specs.declared.description.ChipSetType.TheVariants.{Banked, Multi};
ghost use Rattle.picks.specs.Picks.{x_lines, picks_of, picked_by, chips_fit};

use slot::description::ChipSetType;

fn x_lines(chips: u8) -> u8
    ensures value { result ≡ x_lines chips }
    ensures upper_bound { result ≤ 2 }
{
    if 3 <= chips {
        return 2;
    }
    1
}

// How many lines pick.
pub fn num_picks(set_type: ChipSetType, chips: u8) -> u8
    ensures value { result ≡ picks_of set_type chips }
    ensures upper_bound { result ≤ 3 }
{
    match set_type {
        ChipSetType::Single => 0,
        ChipSetType::Banked => x_lines(chips),
        ChipSetType::Multi => 1 + x_lines(chips),
    }
}

fn bank(chips: u8, bits: u8) -> Option<u8>
    ensures { result ≡ picked_by Banked chips bits }
{
    if chips <= bits {
        return None;
    }
    Some(bits)
}

fn only_one(bits: u8) -> Option<u8>
    ensures { result ≡ picked_by Multi 0 bits }
{
    match bits {
        1 => Some(0),
        2 => Some(1),
        4 => Some(2),
        _ => None,
    }
}

// The chip that the bits of the picking lines pick.
pub fn picked_by(set_type: ChipSetType, chips: u8, bits: u8) -> Option<u8>
    ensures { result ≡ picked_by set_type chips bits }
{
    match set_type {
        ChipSetType::Single => Some(0),
        ChipSetType::Banked => bank(chips, bits),
        ChipSetType::Multi => only_one(bits),
    }
}

// Whether a set of this kind has so many chips.
pub fn chips_fit(set_type: ChipSetType, n: u8) -> bool
    ensures { result ≡ chips_fit set_type n }
{
    match set_type {
        ChipSetType::Single => n == 1,
        ChipSetType::Banked => (2 <= n) & (n <= 4),
        ChipSetType::Multi => (2 <= n) & (n <= 3),
    }
}
