// The choices, and which of them is the best. A choice number has two parts: the GPIOs of the bits below a split are found
// once, and joined in each row of choices with those of the other bits.
ghost use Rattle.std.specs.Prelude.{◌≡◌, cond, ◌^◌, ◌<◌};
ghost use Rattle.gpio.specs.Set.{with};
ghost use Rattle.listing.specs.Design.Packed.{list_of};
ghost use Rattle.search.specs.Search.{better_of, best};
ghost use Rattle.cs_verdict.specs.Verdict.{verdict_trial};
ghost use Rattle.cs_choices.specs.Sets.{verdict_on};
ghost use Rattle.cs_choices.specs.Design.Parts.{set_part_at, parts_of, sets_of, in_row, PinsIn, BitsIn, SearchIn};
ghost use Rattle.cs_choices.specs.Design.Laws.{row-passes};

use cs_verdict::{Verdict, judge};
use gpio::set::with;
use listing::Listing;
use listing::choice::{in_part, pick};
use search::rows::{InRows, in_rows};
use search::{Found, better};

// The GPIOs of a choice, or of a part of its number.
#[derive(Clone, Copy)]
pub struct Sets {
    pub data_gpios: u64,
    pub select_gpios: u64,
}

// What no choice changes.
#[derive(Clone, Copy)]
pub struct Fixed {
    pub multi: bool,
    pub num_data: usize,
    pub excess: u64,
    pub qualifiers: u64,
}

fn with_if(s: u64, wanted: bool, g: u8) -> u64
    requires { g < 64 }
    ensures { result ≡ cond wanted (with s g) s }
{
    if wanted { with(s, g) } else { s }
}

// The GPIOs of the pins from `from` up to `to` that one part of the choice number serves.
fn part(l: Listing, from: usize, to: usize, low: bool, split: u32, choice: u32) -> u64
    requires { PinsIn l to }
    ensures { result ≡ set_part_at (list_of l) from low split choice to }
{
    let mut s: u64 = 0;
    let mut rest = choice;
    let mut bit: u32 = 0;
    for k in 0..to {
        let packed = l.pins[k];
        let pin = packed.listed();
        let gpios = pin.gpios;
        let picked = pick(gpios, rest);
        s = with_if(s, (from <= k) & in_part(low, split, bit), picked.gpio);
        rest = picked.rest;
        bit += listing::bits(pin);
    }
    s
}

// The GPIOs of all pins that one part of the choice number serves.
pub(crate) fn parts(l: Listing, num_data: usize, low: bool, split: u32, choice: u32) -> Sets
    requires { PinsIn l num_data }
    ensures { result ≡ parts_of (list_of l) num_data low split choice }
{
    Sets {
        data_gpios: part(l, 0, num_data, low, split, choice),
        select_gpios: part(l, num_data, l.count, low, split, choice),
    }
}

// The verdict on the choice that two parts of a number make.
pub(crate) fn joined(fixed: Fixed, low: Sets, high: Sets) -> Verdict
    ensures { result ≡ in_row fixed low high }
{
    judge(
        fixed.multi,
        fixed.qualifiers,
        low.data_gpios | high.data_gpios,
        low.select_gpios | high.select_gpios | fixed.excess,
    )
}

// The GPIOs of a choice.
pub fn whole(l: Listing, fixed: Fixed, choice: u32) -> Sets
    requires { PinsIn l fixed.num_data }
    ensures { result ≡ sets_of (list_of l) fixed.num_data fixed.excess choice }
{
    let all = parts(l, fixed.num_data, false, 0, choice);
    Sets {
        data_gpios: all.data_gpios,
        select_gpios: all.select_gpios | fixed.excess,
    }
}

fn trial(v: Verdict) -> Option<u32>
    ensures { result ≡ verdict_trial v }
{
    match v {
        Verdict::DataGap => None,
        Verdict::SelectGap(_) => None,
        Verdict::OutsideWindow => None,
        Verdict::Fits(score) => Some(score),
    }
}

// What a table has before it is filled.
pub(crate) fn no_gpios() -> Sets {
    Sets {
        data_gpios: 0,
        select_gpios: 0,
    }
}

// The search for the best choice.
#[derive(Drop)]
struct Search {
    list: Listing,
    fixed: Fixed,
}

impl InRows for Search {
    type Part = Sets;

    type State = Option<Found>;

    ghost formed = { λ s. SearchIn s.list s.fixed };

    ghost part_of = { λ s low split c. parts_of (list_of s.list) s.fixed.num_data low split c };

    ghost stepped = { λ s before c low high. better_of before c (verdict_trial (in_row s.fixed low high)) };

    ghost after = { λ s k. best (λ c. verdict_trial (verdict_on (list_of s.list) s.fixed c)) k };

    fn part(&self, low: bool, split: u32, choice: u32) -> Sets {
        parts(self.list, self.fixed.num_data, low, split, choice)
    }

    fn step(&self, before: Option<Found>, choice: u32, low: Sets, high: Sets) -> Option<Found> {
        better(before, choice, trial(joined(self.fixed, low, high)))
    }

    ghost passes = { λ s k row q f l. row-passes (list_of s.list) s.fixed k row q f.lines l };
}

// The best of the choices that `bits` two-candidate pins leave.
pub fn best(l: Listing, fixed: Fixed, bits: u32) -> Option<Found>
    requires { BitsIn l fixed.num_data bits 16 }
    ensures { result ≡ best (λ c. verdict_trial (verdict_on (list_of l) fixed c)) (2 ^ bits) }
{
    let mut lows = [no_gpios(); 64];
    in_rows(&Search { list: l, fixed }, &mut lows, bits, None)
}
