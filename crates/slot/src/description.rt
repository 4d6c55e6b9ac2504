// The description of one slot: what `Board`, `ChipType` and `SlotContext` say in the original, as
// numbers by value. A count stands beside each array; entries past it count for nothing.
ghost use Rattle.std.specs.Prelude.{◌≡◌};
ghost use Rattle.slot.specs.Description.{is_a, is_single, is_multi, chip0};

use gpio::candidates::{Candidates, Pin};

// The board's socket and its two X pins.
#[derive(Clone, Copy)]
pub struct Board {
    // Socket pin n at place n - 1.
    pub socket: [Pin; 40],
    pub pins: u8,
    pub x1: Candidates,
    pub x2: Candidates,
}

// The package of the board's RP2350, which tells how many GPIOs are bonded out: 30 on A, 48 on B.
#[derive(Clone, Copy)]
pub enum Package {
    A,
    B,
}

impl Package {
    // Whether it is the smaller one.
    pub fn is_a(self) -> bool
        ensures { result ≡ is_a self }
    {
        matches!(self, Package::A)
    }
}

// A control line of a chip. Kinds: 0 ce, 1 oe, 2 to 5 cs1 to cs4, 6 any other line. The kind is a number and no enum: a description may
// come with any, and is refused by number 1 if it is above 6 (`line_in`).
#[derive(Clone, Copy)]
pub struct ControlLine {
    pub kind: u8,
    pub pin: u8,
}

// A chip's control lines: the first `count` of the places.
#[derive(Clone, Copy)]
pub struct ControlLines {
    pub lines: [ControlLine; 8],
    pub count: u8,
}

// A chip: its pin numbers, lowest line first, and its size in bytes.
#[derive(Clone, Copy)]
pub struct Chip {
    pub address_pins: [u8; 24],
    pub num_address_pins: u8,
    pub data_pins: [u8; 16],
    pub num_data_pins: u8,
    pub control: ControlLines,
    pub size: u32,
}

// How many chips share the socket, and what picks one: none, the X pins as a bank's bits, or select lines.
#[derive(Clone, Copy, PartialEq, Eq)]
pub enum ChipSetType {
    Single,
    Banked,
    Multi,
}

impl ChipSetType {
    // Whether the set is one chip.
    pub fn is_single(self) -> bool
        ensures { result ≡ is_single self }
    {
        matches!(self, ChipSetType::Single)
    }

    // Whether chips of the set are told apart by select lines.
    pub fn is_multi(self) -> bool
        ensures { result ≡ is_multi self }
    {
        matches!(self, ChipSetType::Multi)
    }
}

// How a control line is read.
#[derive(Clone, Copy)]
pub enum CsLogic {
    ActiveLow,
    ActiveHigh,
    Ignore,
}

// The select settings of a chip, in the original's three forms.
#[derive(Clone, Copy)]
pub enum CsConfig {
    ChipSelect {
        cs1: CsLogic,
        cs2: Option<CsLogic>,
        cs3: Option<CsLogic>,
        cs4: Option<CsLogic>,
    },
    CeOe,
    CeOeExplicit {
        ce: CsLogic,
        oe: CsLogic,
    },
}

// The original's `MultiChipCsConfig`: which line tells the chips of a Multi set apart, which lines
// they share, and which count for nothing. Lines by kind.
#[derive(Clone, Copy)]
pub struct MultiCsConfig {
    pub select: u8,
    pub commoned: [u8; 8],
    pub num_commoned: u8,
    pub ignored: [u8; 8],
    pub num_ignored: u8,
}

// A slot as every call takes it: the board, the chips on it and how they are selected.
#[derive(Clone, Copy)]
pub struct Description {
    pub board: Board,
    pub package: Package,
    pub set_type: ChipSetType,
    // Bytes of a word: 1 in 8-bit mode, 2 in 16-bit mode.
    pub word_bytes: u8,
    // Socket pin less chip pin.
    pub pin_offset: i8,
    // The largest table in bytes, the original's `MAX_IMAGE_SIZE`.
    pub max_image_size: u32,
    pub chips: [Chip; 4],
    pub num_chips: u8,
    // Chip 0's settings.
    pub cs_config: CsConfig,
    // A flag and no Option: what a description's bytes say of a Multi set is promised whether or not it is set (`described`), and the
    // definitions speak of its lines without the flag.
    pub has_multi: bool,
    pub multi: MultiCsConfig,
    // Lines in use whose all being high deselects the chip, by index; none: no qualifiers.
    pub qualifiers: [u8; 8],
    pub num_qualifiers: u8,
}

impl Description {
    // The chip by whose pins and lines the searches go.
    pub fn chip0(self) -> Chip
        ensures { result ≡ chip0 self }
    {
        let chips = self.chips;
        chips[0]
    }
}
