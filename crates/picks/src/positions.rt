// Where a line stands in an index or in an entry: its GPIO less the base.
ghost use Rattle.std.specs.Prelude.{◌≡◌, get_or};
ghost use Rattle.lists.specs.Each.{each};
ghost use Rattle.lists.specs.Tab.{tab};
ghost use Rattle.picks.specs.Positions.{position, position_in, x_position_in, x_position};

// The position of a GPIO from a base; 0 below it.
pub fn position(base: u8, gpio: u8) -> u8
    ensures { result ≡ position base gpio }
{
    if gpio < base {
        return 0;
    }
    gpio - base
}

// The positions of GPIOs from a base.
pub fn positions<const N: usize>(base: u8, gpios: [u8; N]) -> [u8; N]
    ensures { result ≡ tab N (λ k. position base (get_or gpios.entry k 0)) }
{
    let mut out = [0u8; N];
    for k in 0..N {
        out[k] = position(base, gpios[k]);
    }
    out
}

// Whether a GPIO has a position from a base that an index of 32 bits has.
pub fn position_in(base: u8, gpio: u8) -> bool
    ensures { result ≡ position_in base gpio }
{
    (base <= gpio) & (position(base, gpio) <= 31)
}

// A GPIO that is needed and absent has no position.
pub fn x_position_in(base: u8, x: Option<u8>) -> bool
    ensures { result ≡ x_position_in base x }
{
    match x {
        None => false,
        Some(gpio) => position_in(base, gpio),
    }
}

// The position of an X pin's GPIO; 0 where it has none.
pub fn x_position(base: u8, x: Option<u8>) -> u8
    ensures { result ≡ x_position base x }
{
    match x {
        None => 0,
        Some(gpio) => position(base, gpio),
    }
}

// Whether the first n GPIOs all have positions from the base.
pub fn positions_in(gpios: &[u8], n: u8, base: u8) -> bool
    ensures { result ≡ each n (λ k. position_in base (get_or gpios.now k 0)) }
{
    let count = n as usize;
    let mut ok = true;
    for k in 0..count {
        let gpio = lists::array::entry(gpios, k);
        ok = ok & position_in(base, gpio);
    }
    ok
}
