// The candidates of a pin in a record: two bytes, 255 where there is none.
ghost use Rattle.std.specs.Prelude.{◌≡◌, ◌<◌, ◌^◌};
ghost use Rattle.fields.specs.Candidates.{pair_of, pair_at, pair_in};

use gpio::candidates::Candidates;
use lists::array::entry;

// The candidates that two bytes give. One way out, so that what an enum leaves unset is stored with the rest: of pins in a loop the
// compiler else keeps what stood there before.
pub(crate) fn pair_of(g: u8, h: u8) -> Candidates
    ensures { result ≡ pair_of g h }
{
    if g == 255 {
        Candidates::Absent
    } else if h == 255 {
        Candidates::One(g)
    } else {
        Candidates::Two(g, h)
    }
}

// The candidates of a pin, two bytes from a place.
pub fn pair_at(b: &[u8], p: usize) -> Candidates
    requires { p < 2 ^ 32 }
    ensures { result ≡ pair_at b.now p }
{
    let g = entry(b, p);
    let h = entry(b, p + 1);
    pair_of(g, h)
}

// Whether the two bytes are candidates: no second without a first.
pub fn pair_in(b: &[u8], p: usize) -> bool
    requires { p < 2 ^ 32 }
    ensures { result ≡ pair_in b.now p }
{
    let g = entry(b, p);
    let h = entry(b, p + 1);
    (g != 255) | (h == 255)
}
