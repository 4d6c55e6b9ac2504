// A chip's pins in the socket, and its control lines by kind.
ghost use Rattle.std.specs.Prelude.{◌≡◌, cond, eqb, get_or};
ghost use Rattle.listing.specs.Lines.{pin_socket, pin_candidates, pin_of, kind_pin};

use domain::chip::control_line;
use gpio::candidates::Candidates;
use lists::array::entry;
use slot::description::{ControlLine, ControlLines, Description};
use slot::slot_context;

// The socket pin under a chip pin.
pub fn pin_socket(d: Description, pin: u8) -> Option<u8>
    ensures { result ≡ pin_socket d pin }
{
    let board = d.board;
    let raised = slot_context::raised(d.pin_offset);
    slot_context::socket_pin(pin, raised, board.pins)
}

// A chip pin's candidates: none off the socket.
pub fn pin_candidates(d: Description, pin: u8) -> Candidates
    ensures { result ≡ pin_candidates d pin }
{
    let board = d.board;
    let s = pin_socket(d, pin);
    match s {
        Some(socket_pin) => crate::candidates_at(board, socket_pin),
        None => Candidates::Absent,
    }
}

// The pin of a line of the kind, else the pin that was found before.
fn pin_if(line: ControlLine, kind: u8, pin: u8) -> u8
    ensures { result ≡ cond (eqb line.kind kind) line.pin pin }
{
    if line.kind == kind { line.pin } else { pin }
}

// The pin of a chip's line of a kind, 0 where it has none.
fn pin_of(lines: ControlLines, kind: u8) -> u8
    ensures { result ≡ pin_of lines kind lines.count }
{
    let count = lines.count as usize;
    let mut pin: u8 = 0;
    for k in 0..count {
        pin = pin_if(control_line(lines, k), kind, pin);
    }
    pin
}

// The pin of chip 0's line of a kind, 0 where it has none.
pub fn kind_pin(d: Description, kind: u8) -> u8
    ensures { result ≡ kind_pin d kind }
{
    let chip = d.chip0();
    let lines = chip.control;
    pin_of(lines, kind)
}

// The kind of the `k`-th commoned line of a Multi set.
pub fn commoned_kind(d: Description, k: usize) -> u8
    ensures { result ≡ get_or d.multi.commoned k 0 }
{
    let multi = d.multi;
    let kinds = multi.commoned;
    entry(&kinds, k)
}
