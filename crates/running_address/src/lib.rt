// A chip address that is kept while the index rises by one. From i to i + 1 the ones at the end of i become zeros, and the zero above
// them a one: bits 0 to t move, t being the zeros at the end of i + 1. So the lines at these positions change and no others, and what
// changes with t stands in a table. The bits that pick a chip go the same way.
#![tactic(auto)]

ghost use Rattle.std.specs.Prelude.{◌≡◌, ◌+◌, ◌%◌, ◌≤◌, ◌<◌, ◌^◌, min, length, get_or};
ghost use Rattle.running_address.specs.Design.Moves.{LinesAt, Moves, Next};

use lists::array::entry;

// The place of a position in a table of lines. An index has no bit past 31: the last place is for the lines that never move.
fn place(p: u8) -> usize
    ensures { result ≡ min p 32 }
{
    p.min(32) as usize
}

// The lines at each position.
fn lines_at(positions: &[u8], n: usize) -> [u32; 33]
    requires { n ≤ 32 }
    ensures { LinesAt n (λ k. get_or positions.now k 0) result }
{
    let mut out = [0u32; 33];
    for k in 0..n {
        let at = place(entry(positions, k));
        out[at] = out[at] | (1u32 << k);
    }
    out
}

// The lines that move with each bit of an index: those at its position and at all below it.
pub fn moves(positions: &[u8], n: usize) -> [u32; 33]
    requires { n ≤ 32 }
    ensures { Moves n (λ k. get_or positions.now k 0) result }
{
    let mut out = lines_at(positions, n);
    for t in 1..32 {
        out[t] = out[t] | out[t - 1];
    }
    out
}

// The address of the index after i, from that of i: the lines move whose bits do.
pub fn next_address(moves: &[u32], address: u32, i: u32) -> u32
    requires { (length moves.now ≡ 33) × (i + 1 < 2 ^ 32) }
    ensures { Next moves.now address i 1 result }
{
    address ^ moves[u32::trailing_zeros(i + 1) as usize]
}

// The address 256 entries on, where the low eight bits of i are clear: they move up to the row's end, and then as from any index.
pub fn next_row(moves: &[u32], address: u32, i: u32) -> u32
    requires { (length moves.now ≡ 33) × (i + 256 < 2 ^ 32) × (i % 256 ≡ 0) }
    ensures { Next moves.now address i 256 result }
{
    next_address(moves, address ^ moves[7], i + 255)
}
