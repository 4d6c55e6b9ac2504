// Where a chip's pins come to lie in the board's socket: the chip sits in the middle of it, so its pins
// are a few places further on, or overhang the socket where the chip is the longer of the two.
ghost use Rattle.std.specs.Prelude.{◌≡◌};
ghost use Rattle.slot.specs.SlotContext.{is_for, known_pairs, offset_from, offset_answer, raised_of, socket_of, board_pins_in};

use refusal::Refusal;

// A pair of pin counts that goes together, and what is added to a chip pin to give the socket pin.
#[derive(Clone, Copy)]
pub struct KnownPair {
    pub chip_pins: u8,
    pub board_pins: u8,
    pub offset: i8,
}

const KNOWN_PAIRS: [KnownPair; 10] = [
    KnownPair {
        chip_pins: 24,
        board_pins: 24,
        offset: 0,
    },
    KnownPair {
        chip_pins: 28,
        board_pins: 28,
        offset: 0,
    },
    KnownPair {
        chip_pins: 32,
        board_pins: 32,
        offset: 0,
    },
    KnownPair {
        chip_pins: 40,
        board_pins: 40,
        offset: 0,
    },
    KnownPair {
        chip_pins: 24,
        board_pins: 28,
        offset: 2,
    },
    KnownPair {
        chip_pins: 28,
        board_pins: 32,
        offset: 2,
    },
    KnownPair {
        chip_pins: 24,
        board_pins: 32,
        offset: 4,
    },
    KnownPair {
        chip_pins: 28,
        board_pins: 24,
        offset: -2,
    },
    KnownPair {
        chip_pins: 32,
        board_pins: 28,
        offset: -2,
    },
    KnownPair {
        chip_pins: 32,
        board_pins: 24,
        offset: -4,
    },
];

// Whether a board's socket has one of the four pin counts.
pub fn board_pins_in(pins: u8) -> bool
    ensures { result ≡ board_pins_in pins }
{
    (pins == 24) | (pins == 28) | (pins == 32) | (pins == 40)
}

fn is_for(pair: KnownPair, chip_pins: u8, board_pins: u8) -> bool
    ensures { result ≡ is_for pair chip_pins board_pins }
{
    (pair.chip_pins == chip_pins) & (pair.board_pins == board_pins)
}

// The offset of the pair's row.
fn known_offset(chip_pins: u8, board_pins: u8) -> Result<i8, Refusal>
    ensures { result ≡ offset_from known_pairs chip_pins board_pins }
{
    for k in 0..10 {
        let pair = KNOWN_PAIRS[k];
        if is_for(pair, chip_pins, board_pins) {
            return Ok(pair.offset);
        }
    }
    Err(Refusal::IncompatiblePinCount)
}

// The offset of a chip with `chip_pins` pins in a socket of `board_pins`.
pub fn socket_pin_offset(chip_pins: u8, board_pins: u8) -> Result<i8, Refusal>
    ensures { result ≡ offset_answer chip_pins board_pins }
{
    if board_pins_in(board_pins) {
        known_offset(chip_pins, board_pins)
    } else {
        Err(Refusal::OutOfDomain)
    }
}

// An offset plus 4, so that it is at least 0; 255 for an offset that is not -4 to 4.
pub fn raised(offset: i8) -> u8
    ensures { result ≡ raised_of offset }
{
    if (offset < -4) | (4 < offset) {
        return 255;
    }
    (offset + 4) as u8
}

// The offset comes raised.
pub fn socket_pin(pin: u8, raised: u8, board_pins: u8) -> Option<u8>
    ensures { result ≡ socket_of pin raised board_pins }
{
    let place = pin as u16 + raised as u16;
    if place < 5 {
        return None;
    }
    if board_pins as u16 + 4 < place {
        return None;
    }
    Some((place - 4) as u8)
}
