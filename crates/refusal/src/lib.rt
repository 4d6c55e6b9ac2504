// What a call is refused for: a case for each number a caller can get, with the place that goes
// with it. The names are the original's where it has one.
#![tactic(auto)]

pub mod first; // the first fault of several

ghost use Rattle.std.specs.Prelude.{◌≡◌};
ghost use Rattle.refusal.specs.Refusal.{number_of, place_of};

use gpio::set::GpioSet;

// The refusals in the order of their numbers, from 1; a field is the place.
#[derive(Clone, Copy)]
pub enum Refusal {
    OutOfDomain,
    NoSelectLine,
    UnmappedPin(u8),
    MissingXPin(u8),
    MissingAddrPinGpios,
    RomTooLargeNoCsConfig,
    NonContiguousSelect(GpioSet),
    InteriorIgnoredLine(u8),
    NoValidLayout,
    IncompatiblePinCount,
    RomTableTooLarge,
    InvalidConfig,
    BadPosition,
    MissingImageData(u8),
    ShortImageData(u8),
    ShortBuffer,
    WrongSize,
    UnknownSlotType,
    MissingLayout,
    UnknownAlgorithm,
    BadLayout,
    XPin(u8),
    Inconsistent { rom: u8, addr: u32 },
    Unserved { rom: u8, addr: u32 },
    NoActiveLine,
    BadRecord,
    BadChecksum,
    PastChip,
}

impl Refusal {
    // The refusal's number.
    pub fn number(self) -> u8
        ensures { result ≡ number_of self }
    {
        match self {
            Refusal::OutOfDomain => 1,
            Refusal::NoSelectLine => 2,
            Refusal::UnmappedPin(_) => 3,
            Refusal::MissingXPin(_) => 4,
            Refusal::MissingAddrPinGpios => 5,
            Refusal::RomTooLargeNoCsConfig => 6,
            Refusal::NonContiguousSelect(_) => 7,
            Refusal::InteriorIgnoredLine(_) => 8,
            Refusal::NoValidLayout => 9,
            Refusal::IncompatiblePinCount => 10,
            Refusal::RomTableTooLarge => 11,
            Refusal::InvalidConfig => 12,
            Refusal::BadPosition => 13,
            Refusal::MissingImageData(_) => 14,
            Refusal::ShortImageData(_) => 15,
            Refusal::ShortBuffer => 16,
            Refusal::WrongSize => 17,
            Refusal::UnknownSlotType => 18,
            Refusal::MissingLayout => 19,
            Refusal::UnknownAlgorithm => 20,
            Refusal::BadLayout => 21,
            Refusal::XPin(_) => 22,
            Refusal::Inconsistent { rom: _, addr: _ } => 23,
            Refusal::Unserved { rom: _, addr: _ } => 24,
            Refusal::NoActiveLine => 25,
            Refusal::BadRecord => 26,
            Refusal::BadChecksum => 27,
            Refusal::PastChip => 28,
        }
    }

    // The place that goes with the number: 0 where none does.
    pub fn place(self) -> u64
        ensures { result ≡ place_of self }
    {
        match self {
            Refusal::OutOfDomain => 0,
            Refusal::NoSelectLine => 0,
            Refusal::UnmappedPin(pin) => pin as u64,
            Refusal::MissingXPin(x) => x as u64,
            Refusal::MissingAddrPinGpios => 0,
            Refusal::RomTooLargeNoCsConfig => 0,
            Refusal::NonContiguousSelect(gpios) => gpios.bits,
            Refusal::InteriorIgnoredLine(gpio) => gpio as u64,
            Refusal::NoValidLayout => 0,
            Refusal::IncompatiblePinCount => 0,
            Refusal::RomTableTooLarge => 0,
            Refusal::InvalidConfig => 0,
            Refusal::BadPosition => 0,
            Refusal::MissingImageData(chip) => chip as u64,
            Refusal::ShortImageData(chip) => chip as u64,
            Refusal::ShortBuffer => 0,
            Refusal::WrongSize => 0,
            Refusal::UnknownSlotType => 0,
            Refusal::MissingLayout => 0,
            Refusal::UnknownAlgorithm => 0,
            Refusal::BadLayout => 0,
            Refusal::XPin(x) => x as u64,
            Refusal::Inconsistent { rom, addr } => rom as u64 * 0x1_0000_0000 + addr as u64,
            Refusal::Unserved { rom, addr } => rom as u64 * 0x1_0000_0000 + addr as u64,
            Refusal::NoActiveLine => 0,
            Refusal::BadRecord => 0,
            Refusal::BadChecksum => 0,
            Refusal::PastChip => 0,
        }
    }
}
