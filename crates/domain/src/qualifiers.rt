// The qualifier list, tested only where an address layout is given: its indices name lines in use of that layout.
ghost use Rattle.std.specs.Prelude.{◌≡◌, leb, ◌+◌};
ghost use Rattle.lists.specs.Each.{each};
ghost use Rattle.domain.specs.Domain.{qualifier_gpio, qualifier_in, qualifiers_in};

use lists::array::entry;

// The GPIO of the `k`-th qualifier's line.
pub fn qualifier_gpio(qualifiers: [u8; 8], gpios: [u8; 24], k: usize) -> u8
    ensures { result ≡ qualifier_gpio qualifiers gpios k }
{
    let line = entry(&qualifiers, k) as usize;
    entry(&gpios, line)
}

// Whether no qualifier's GPIO lies more than 7 below the `k`-th's.
fn near(qualifiers: [u8; 8], count: u8, gpios: [u8; 24], k: usize) -> bool
    ensures { result ≡ each count (λ j. leb (qualifier_gpio qualifiers gpios k) (qualifier_gpio qualifiers gpios j + 7)) }
{
    let n = count as usize;
    let high = qualifier_gpio(qualifiers, gpios, k) as u16;
    let mut ok = true;
    for j in 0..n {
        let low = qualifier_gpio(qualifiers, gpios, j) as u16;
        ok = ok & (high <= low + 7);
    }
    ok
}

fn each_in(qualifiers: [u8; 8], count: u8, gpios: [u8; 24], lines: u8) -> bool
    ensures { result ≡ each count (λ k. qualifier_in qualifiers count gpios lines k) }
{
    let n = count as usize;
    let mut ok = true;
    for k in 0..n {
        let line = entry(&qualifiers, k);
        ok = ok & ((line < lines) & near(qualifiers, count, gpios, k));
    }
    ok
}

// Whether a list of `count` qualifiers keeps to the domain beside a layout with `lines` lines in use at `gpios`.
pub fn qualifiers_in(qualifiers: [u8; 8], count: u8, gpios: [u8; 24], lines: u8) -> bool
    ensures { result ≡ qualifiers_in qualifiers count gpios lines }
{
    (count <= 8) & each_in(qualifiers, count, gpios, lines)
}
