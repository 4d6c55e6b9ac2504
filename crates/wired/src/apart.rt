// Whether lines lie on different pins: n lines, the pin of line k at place first + k of a list.
ghost use Rattle.std.specs.Prelude.{◌≡◌, ◌+◌, get_or};
ghost use Rattle.premises.specs.Wired.{apart_from, apart, none_on};

use lists::array::entry;

fn pin_of(pins: &[u8], first: u8, k: u8) -> u8
    ensures { result ≡ get_or pins.now (first + k) 0 }
{
    entry(pins, first as usize + k as usize)
}

// Whether no other line lies on the pin of line j.
fn apart_from(pins: &[u8], first: u8, n: u8, j: u8) -> bool
    ensures { result ≡ apart_from n (λ k. get_or pins.now (first + k) 0) j }
{
    let pin = pin_of(pins, first, j);
    let mut ok = true;
    for k in 0..n {
        let other = pin_of(pins, first, k);
        ok = ok & ((j == k) | (pin != other));
    }
    ok
}

// Whether no two lines lie on one pin.
pub fn apart(pins: &[u8], first: u8, n: u8) -> bool
    ensures { result ≡ apart n (λ k. get_or pins.now (first + k) 0) }
{
    let mut ok = true;
    for j in 0..n {
        ok = ok & apart_from(pins, first, n, j);
    }
    ok
}

// Whether none of the lines lies on a pin.
pub fn none_on(pins: &[u8], first: u8, n: u8, pin: u8) -> bool
    ensures { result ≡ none_on n (λ k. get_or pins.now (first + k) 0) pin }
{
    let mut ok = true;
    for k in 0..n {
        let other = pin_of(pins, first, k);
        ok = ok & (other != pin);
    }
    ok
}
