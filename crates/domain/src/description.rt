// A description in the domain. Every number of it is tested, whether or not the call uses it.
ghost use Rattle.std.specs.Prelude.{◌≡◌};
ghost use Rattle.domain.specs.Domain.{socket_in, board_in, multi_in, chips_in, no_candidate_above, package_in, description_in};

use crate::chip::chip_in;
use gpio::LAST_GPIO_A;
use lists::array::all_between;
use slot::description::{Board, Chip, Description, MultiCsConfig, Package};
use slot::kinds::{CE, CS4};
use slot::slot_context;

fn socket_in(b: Board) -> bool
    ensures { result ≡ socket_in b }
{
    let socket = b.socket;
    let mut ok = true;
    for k in 0..40 {
        let pin = socket[k];
        let gpios = pin.gpios;
        ok = ok & gpios.in_domain();
    }
    ok
}

fn board_in(b: Board) -> bool
    ensures { result ≡ board_in b }
{
    let x1 = b.x1;
    let x2 = b.x2;
    slot_context::board_pins_in(b.pins) & socket_in(b) & x1.in_domain() & x2.in_domain()
}

fn multi_in(m: MultiCsConfig) -> bool
    ensures { result ≡ multi_in m }
{
    let commoned = m.commoned;
    let ignored = m.ignored;
    let select_in = m.select <= CS4;
    let commoned_in = (m.num_commoned <= 6) & all_between(&commoned, m.num_commoned, CE, CS4);
    let ignored_in = (m.num_ignored <= 6) & all_between(&ignored, m.num_ignored, CE, CS4);
    select_in & commoned_in & ignored_in
}

// The chips up to the count; those past it count for nothing.
fn chips_in(chips: [Chip; 4], count: u8, word_bytes: u8) -> bool
    ensures { result ≡ chips_in chips count word_bytes }
{
    let n = count as usize;
    let mut ok = true;
    for k in 0..4 {
        let chip = chips[k];
        ok = ok & ((n <= k) | chip_in(chip, word_bytes));
    }
    ok
}

// Whether no candidate of a board is above a GPIO. Places past the board's pins and X pins that no chip needs count too.
fn no_candidate_above(b: Board, last: u8) -> bool
    ensures { result ≡ no_candidate_above last b }
{
    let socket = b.socket;
    let x1 = b.x1;
    let x2 = b.x2;
    let mut ok = true;
    for k in 0..40 {
        let pin = socket[k];
        let gpios = pin.gpios;
        ok = ok & gpios.none_above(last);
    }
    ok & x1.none_above(last) & x2.none_above(last)
}

// Whether the board keeps to its package: on A no candidate is above 29.
pub fn package_in(package: Package, b: Board) -> bool
    ensures { result ≡ package_in «package» b }
{
    if package.is_a() {
        return no_candidate_above(b, LAST_GPIO_A);
    }
    true
}

// Whether a description is in the domain, the qualifier list and the searches' own counts aside.
pub fn description_in(d: Description) -> bool
    ensures { result ≡ description_in d }
{
    let board = d.board;
    // First and by itself: beside the other tests the loop over the pins takes four times as long.
    if !board_in(board) {
        return false;
    }
    let package = d.package;
    let chips = d.chips;
    let multi = d.multi;
    let set_type = d.set_type;
    let w = d.word_bytes;
    let n = d.num_chips;
    let word_in = (w == 1) | (w == 2);
    let size_in = (256 <= d.max_image_size) & (d.max_image_size <= 0x10_0000);
    let offset_in = slot_context::raised(d.pin_offset) <= 8;
    let count_in = (1 <= n) & (n <= 4);
    let config_in = !d.has_multi | multi_in(multi);
    let config_there = !set_type.is_multi() | d.has_multi;
    word_in
        & size_in
        & offset_in
        & count_in
        & chips_in(chips, n, w)
        & config_in
        & config_there
        & package_in(package, board)
}
