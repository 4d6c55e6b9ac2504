// Why nothing fits: an ignored line that stands between the selects, else the selects that no PIO can read, else neither. It
// goes through the choices in rows, as the search for the best does.
ghost use Rattle.std.specs.Prelude.{◌≡◌, ◌^◌};
ghost use Rattle.listing.specs.Design.Packed.{list_of};
ghost use Rattle.cs_choices.specs.Sets.{verdict_on};
ghost use Rattle.cs_choices.specs.Design.Parts.{parts_of, in_row, BitsIn, SearchIn};
ghost use Rattle.cs_choices.specs.Nothing.{interior_in, nothing_fits};
ghost use Rattle.cs_choices.specs.Design.Seen.{or_set, interior_set, refused_set, refused_in, none_seen, seen_with, seen_onward};
ghost use Rattle.cs_choices.specs.Design.Laws.{row-seen};

use crate::choices::{Fixed, Sets, joined, no_gpios, parts};
use cs_verdict::Verdict;
use gpio::set::{GpioSet, gap, lowest};
use listing::Listing;
use refusal::Refusal;
use search::rows::{InRows, in_rows};

// What the choices passed show: the ignored GPIOs of the first refused gap that has some, and the last refused set, 0 where
// there is none. Numbers, since copying the answer's enums at each choice takes longer than judging it.
#[derive(Clone, Copy)]
struct Seen {
    interior: u64,
    refused: u64,
}

fn interior_in(seen: u64) -> Option<Refusal>
    ensures { result ≡ interior_in seen }
{
    if seen == 0 {
        return None;
    }
    Some(Refusal::InteriorIgnoredLine(lowest(seen) as u8))
}

fn refused_in(seen: u64) -> Option<Refusal>
    ensures { result ≡ refused_in seen }
{
    if seen == 0 {
        return None;
    }
    Some(Refusal::NonContiguousSelect(GpioSet { bits: seen }))
}

// The ignored GPIOs in a refused gap: none with any other verdict.
fn interior_set(ignored: u64, v: Verdict) -> u64
    ensures { result ≡ interior_set ignored v }
{
    match v {
        Verdict::DataGap => 0,
        Verdict::SelectGap(s) => gap(s) & ignored,
        Verdict::OutsideWindow => 0,
        Verdict::Fits(_) => 0,
    }
}

fn refused_set(v: Verdict) -> u64
    ensures { result ≡ refused_set v }
{
    match v {
        Verdict::DataGap => 0,
        Verdict::SelectGap(s) => s,
        Verdict::OutsideWindow => 0,
        Verdict::Fits(_) => 0,
    }
}

// The first of two sets that has a GPIO.
fn or_set(first: u64, second: u64) -> u64
    ensures { result ≡ or_set first second }
{
    if first == 0 { second } else { first }
}

// What was seen, and the verdict on a later choice.
fn seen_with(ignored: u64, before: Seen, v: Verdict) -> Seen
    ensures { result ≡ seen_with ignored before v }
{
    Seen {
        interior: or_set(before.interior, interior_set(ignored, v)),
        refused: or_set(refused_set(v), before.refused),
    }
}

// The search for why nothing fits.
#[derive(Drop)]
struct Search {
    list: Listing,
    fixed: Fixed,
    ignored: u64,
}

impl InRows for Search {
    type Part = Sets;

    type State = Seen;

    ghost formed = { λ s. SearchIn s.list s.fixed };

    ghost part_of = { λ s low split c. parts_of (list_of s.list) s.fixed.num_data low split c };

    ghost stepped = { λ s before c low high. seen_with s.ignored before (in_row s.fixed low high) };

    ghost after = { λ s k. seen_onward s.ignored none_seen (verdict_on (list_of s.list) s.fixed) k };

    fn part(&self, low: bool, split: u32, choice: u32) -> Sets {
        parts(self.list, self.fixed.num_data, low, split, choice)
    }

    fn step(&self, before: Seen, _choice: u32, low: Sets, high: Sets) -> Seen {
        seen_with(self.ignored, before, joined(self.fixed, low, high))
    }

    ghost passes = { λ s k row q f l. row-seen (list_of s.list) s.fixed s.ignored k row q f.lines l };
}

// Of the choices in turn, the first interior ignored line, else the last refused set.
pub fn why(l: Listing, fixed: Fixed, bits: u32, ignored: u64) -> Option<Refusal>
    requires { BitsIn l fixed.num_data bits 16 }
    ensures { result ≡ nothing_fits ignored (λ c. verdict_on (list_of l) fixed c) (2 ^ bits) }
{
    let search = Search {
        list: l,
        fixed,
        ignored,
    };
    let none = Seen {
        interior: 0,
        refused: 0,
    };
    let mut lows = [no_gpios(); 64];
    let seen = in_rows(&search, &mut lows, bits, none);
    interior_in(seen.interior).or(refused_in(seen.refused))
}
