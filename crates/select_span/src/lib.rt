// The GPIOs that every choice of the address search spans: those of a Multi set's select and commoned lines.
#![tactic(auto)]

ghost use Rattle.std.specs.Prelude.{◌≡◌};
ghost use Rattle.select_span.specs.Selects.{widened_first, kind_candidates, select_span, fixed_span};

use gpio::candidates::Candidates;
use gpio::span::Span;
use listing::lines::{commoned_kind, kind_pin, pin_candidates};
use slot::description::Description;

fn widen_first(s: Span, gpios: Candidates) -> Span
    ensures { result ≡ widened_first s gpios }
{
    match gpios {
        Candidates::Absent => s,
        Candidates::One(g) => s.widen(g),
        Candidates::Two(g, _) => s.widen(g),
    }
}

// The candidates of chip 0's line of a kind: none where it is not on the chip or off the socket.
fn kind_candidates(d: Description, kind: u8) -> Candidates
    ensures { result ≡ kind_candidates d kind }
{
    let pin = kind_pin(d, kind);
    if pin == 0 {
        return Candidates::Absent;
    }
    pin_candidates(d, pin)
}

// The select and commoned lines of a Multi set, each by its first candidate: the index reads them too.
fn select_span(d: Description) -> Span
    ensures { result ≡ select_span d d.multi.num_commoned }
{
    let multi = d.multi;
    let count = multi.num_commoned as usize;
    let mut s = widen_first(Span::empty(), kind_candidates(d, multi.select));
    for k in 0..count {
        s = widen_first(s, kind_candidates(d, commoned_kind(d, k)));
    }
    s
}

// The GPIOs that every choice spans.
pub fn fixed_span(d: Description) -> Span
    ensures { result ≡ fixed_span d }
{
    let set_type = d.set_type;
    if set_type.is_multi() {
        return select_span(d);
    }
    Span::empty()
}
