// Whether no GPIO is a candidate for two pins of a board.
ghost use Rattle.std.specs.Prelude.{◌≡◌};
ghost use Rattle.premises.specs.Wired.{board_pin, holds, disjoint, alone_at, unshared};

use gpio::candidates::Candidates;
use listing::candidates_at;
use slot::description::Board;

// The candidates of a board's pin by number: those below n are the socket's, n is X1, n + 1 is X2.
fn board_pin(b: Board, n: u8, i: u16) -> Candidates
    ensures { result ≡ board_pin n b i }
{
    if i < n as u16 {
        return candidates_at(b, (i + 1) as u8);
    }
    if i == n as u16 {
        return b.x1;
    }
    b.x2
}

// Whether a GPIO is one of a pin's candidates.
fn holds(gpios: Candidates, gpio: u8) -> bool
    ensures { result ≡ holds gpios gpio }
{
    match gpios {
        Candidates::Absent => false,
        Candidates::One(a) => gpio == a,
        Candidates::Two(a, b) => (gpio == a) | (gpio == b),
    }
}

// Whether two pins have no candidate in common.
fn disjoint(gpios: Candidates, others: Candidates) -> bool
    ensures { result ≡ disjoint gpios others }
{
    match gpios {
        Candidates::Absent => true,
        Candidates::One(a) => !holds(others, a),
        Candidates::Two(a, b) => !holds(others, a) & !holds(others, b),
    }
}

// Whether a pin shares no candidate with another pin.
fn alone_at(b: Board, n: u8, i: u16) -> bool
    ensures { result ≡ alone_at n b i }
{
    let pin = board_pin(b, n, i);
    let count = n as u16 + 2;
    let mut ok = true;
    for j in 0..count {
        let other = board_pin(b, n, j);
        ok = ok & ((i == j) | disjoint(pin, other));
    }
    ok
}

// Whether no two pins of the board, X pins included, share a candidate. What stands in the socket's array past them is no pin.
pub fn unshared(b: Board) -> bool
    ensures { result ≡ unshared b }
{
    let n = b.pins;
    let all = n as u16 + 2;
    let mut ok = true;
    for i in 0..all {
        ok = ok & alone_at(b, n, i);
    }
    ok
}
