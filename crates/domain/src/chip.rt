// A chip in the domain: its pin numbers, its control lines, its size.
ghost use Rattle.std.specs.Prelude.{◌≡◌, not, eqb};
ghost use Rattle.lists.specs.Each.{each};
ghost use Rattle.slot.specs.Description.{line_at, kind_at};
ghost use Rattle.domain.specs.Domain.{line_in, lines_in, control_in, chip_in};

use lists::array::all_between;
use slot::description::{Chip, ControlLine, ControlLines};
use slot::kinds::OTHER;

// A control line, or one of kind 0 at pin 0 past the array's end.
pub fn control_line(c: ControlLines, k: usize) -> ControlLine
    ensures { result ≡ line_at c k }
{
    if 8 <= k {
        return ControlLine { kind: 0, pin: 0 };
    }
    let lines = c.lines;
    lines[k]
}

// The kind of the `k`-th control line.
pub fn kind_at(c: ControlLines, k: usize) -> u8
    ensures { result ≡ kind_at c k }
{
    let line = control_line(c, k);
    line.kind
}

// Whether no line before the `k`-th has its kind.
fn kind_new(c: ControlLines, k: usize) -> bool
    ensures { result ≡ each k (λ j. not (eqb (kind_at c j) (kind_at c k))) }
{
    let kind = kind_at(c, k);
    let mut ok = true;
    for j in 0..k {
        ok = ok & (kind_at(c, j) != kind);
    }
    ok
}

fn line_in(c: ControlLines, k: usize) -> bool
    ensures { result ≡ line_in c k }
{
    let line = control_line(c, k);
    (1 <= line.pin)
        & (line.pin <= 40)
        & (line.kind <= OTHER)
        & ((line.kind == OTHER) | kind_new(c, k))
}

fn lines_in(c: ControlLines) -> bool
    ensures { result ≡ lines_in c }
{
    let n = c.count as usize;
    let mut ok = true;
    for k in 0..n {
        ok = ok & line_in(c, k);
    }
    ok
}

// Whether a chip's control lines keep to the domain.
pub fn control_in(c: ControlLines) -> bool
    ensures { result ≡ control_in c }
{
    (c.count <= 8) & lines_in(c)
}

// Whether a chip keeps to the domain, for words of so many bytes.
pub fn chip_in(c: Chip, word_bytes: u8) -> bool
    ensures { result ≡ chip_in c word_bytes }
{
    let address = c.address_pins;
    let data = c.data_pins;
    let lines = c.control;
    let a = c.num_address_pins;
    let d = c.num_data_pins;
    let address_in = (1 <= a)
        & (a <= 24)
        & ((word_bytes == 1) | (2 <= a))
        & all_between(&address, a, 1, 40);
    let data_in = (1 <= d) & (d <= 16) & all_between(&data, d, 1, 40);
    address_in & data_in & control_in(lines) & (c.size <= 0x100_0000)
}
