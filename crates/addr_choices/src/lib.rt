// The address search's choices of candidates: the GPIOs that one spans, its score, and which choice is the best.
#![tactic(auto)]

ghost use Rattle.std.specs.Prelude.{◌≡◌, cond, ◌^◌, ◌≤◌};
ghost use Rattle.gpio.specs.Span.{widened};
ghost use Rattle.gpio.specs.Design.Span.{spans_joined};
ghost use Rattle.listing.specs.Design.Packed.{list_of};
ghost use Rattle.search.specs.Search.{better_of, best};
ghost use Rattle.addr_choices.specs.Choices.{spanning_of, choice_span, span_width, padded_pins, span_trial};
ghost use Rattle.addr_choices.specs.Design.Parts.{part_span};
ghost use Rattle.addr_choices.specs.Design.Laws.{row-passes};

use addr_lines::num_lines;
use addr_lines::range::in_range;
use gpio::span::Span;
use gpio::window::Window;
use listing::Listing;
use listing::choice::{in_part, pick};
use search::rows::{InRows, in_rows};
use search::{Found, better};
use select_span::fixed_span;
use slot::description::Description;

// What no choice changes: of `lines` lines the first `in_range` are spanned, and some GPIOs by every choice.
#[derive(Clone, Copy)]
pub struct Spanning {
    pub in_range: usize,
    pub lines: usize,
    pub fixed: Span,
}

// What no choice of a description changes.
pub fn every_choice(d: Description) -> Spanning
    ensures { result ≡ spanning_of d }
{
    Spanning {
        in_range: in_range(d) as usize,
        lines: num_lines(d) as usize,
        fixed: fixed_span(d),
    }
}

fn widen_if(s: Span, wanted: bool, g: u8) -> Span
    ensures { result ≡ cond wanted (widened s g) s }
{
    if wanted { s.widen(g) } else { s }
}

// The GPIOs that one part of a choice number spans, the bits below `split` or those from it on: of the pins that they
// serve, the lines in range, and the X pins behind the lines.
fn part_span(l: Listing, every: Spanning, low: bool, split: u32, choice: u32) -> Span
    requires { l.count ≤ 30 }
    ensures { result ≡ part_span (list_of l) every low split choice }
{
    let count = l.count;
    let in_range = every.in_range;
    let lines = every.lines;
    let mut s = every.fixed;
    let mut rest = choice;
    let mut bit: u32 = 0;
    for k in 0..count {
        let packed = l.pins[k];
        let pin = packed.listed();
        let gpios = pin.gpios;
        let picked = pick(gpios, rest);
        let counts = (k < in_range) | (lines <= k);
        s = widen_if(s, counts & in_part(low, split, bit), picked.gpio);
        rest = picked.rest;
        bit += listing::bits(pin);
    }
    s
}

fn width(s: Span) -> u32
    ensures { result ≡ span_width s }
{
    if s.high < s.low {
        return 1;
    }
    s.high as u32 - s.low as u32 + 1
}

// The PIO reads at least 8 GPIOs.
pub fn pins(s: Span) -> u32
    ensures { result ≡ padded_pins s }
{
    let w = width(s);
    if 8 < w { w } else { 8 }
}

// The score of a choice with a span, if one window holds it.
fn trial(s: Span) -> Option<u32>
    ensures { result ≡ span_trial s }
{
    let n = pins(s);
    if 48 < n {
        return None;
    }
    if Window::fits(s.low, n as u8) {
        return Some(n * 1000 + s.low as u32);
    }
    None
}

// The search for the best choice.
#[derive(Drop)]
struct Search {
    every: Spanning,
    list: Listing,
}

impl InRows for Search {
    type Part = Span;

    type State = Option<Found>;

    ghost formed = { λ s. s.list.count ≤ 30 };

    ghost part_of = { λ s low split c. part_span (list_of s.list) s.every low split c };

    ghost stepped = { λ s before c low high. better_of before c (span_trial (spans_joined low high)) };

    ghost after = { λ s k. best (λ c. span_trial (choice_span (list_of s.list) s.every c)) k };

    fn part(&self, low: bool, split: u32, choice: u32) -> Span {
        part_span(self.list, self.every, low, split, choice)
    }

    fn step(&self, before: Option<Found>, choice: u32, low: Span, high: Span) -> Option<Found> {
        better(before, choice, trial(low.join(high)))
    }

    ghost passes = { λ s k row q f l. row-passes (list_of s.list) s.every k row q l };
}

// The best of the choices that `bits` two-candidate pins leave.
pub fn best(every: Spanning, l: Listing, bits: u32) -> Option<Found>
    requires { (l.count ≤ 30) × (bits ≤ 16) }
    ensures { result ≡ best (λ c. span_trial (choice_span (list_of l) every c)) (2 ^ bits) }
{
    let mut lows = [Span::empty(); 64];
    in_rows(&Search { every, list: l }, &mut lows, bits, None)
}
