// A search over choices by number: the lowest score wins, and the earliest among equals.
#![tactic(auto)]

pub mod rows; // the choices, taken in rows

ghost use Rattle.std.specs.Prelude.{◌≡◌, ◌≤◌, min};
ghost use Rattle.search.specs.Search.{better_of};

// The best choice so far, with its score.
#[derive(Clone, Copy)]
pub struct Found {
    pub choice: u32,
    pub score: u32,
}

// The better of what was found and a later choice.
pub fn better(found: Option<Found>, choice: u32, trial: Option<u32>) -> Option<Found>
    ensures { result ≡ better_of found choice trial }
{
    match trial {
        None => found,
        Some(score) => match found {
            None => Some(Found { choice, score }),
            Some(Found { score: lowest, .. }) => {
                if score < lowest {
                    Some(Found { choice, score })
                } else {
                    found
                }
            }
        },
    }
}

// Choices go in rows of at most 64: those of a row have the same bits from here on, so that what these come to is found once
// a row, and what the bits below come to once a search.
pub fn row_bits(bits: u32) -> u32
    ensures value { result ≡ min bits 6 }
    ensures upper_bound { (result ≤ bits) × (result ≤ 6) }
{
    if bits < 6 { bits } else { 6 }
}
