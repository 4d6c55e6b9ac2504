// The slot as it is stored, the original's `OneromRomSlot` with its algorithms, and the board's X pins: numbers by value, any byte
// where nothing else is said. A count stands beside each array; entries past it count for nothing.
use gpio::candidates::Candidates;
use slot::description::ChipSetType;

// What the slot holds. Single RAM is read as Single ROM.
#[derive(Clone, Copy)]
pub enum SlotType {
    Unknown,
    Plugin,
    Roms(ChipSetType),
}

// The address PIO reads `num_addr_pins` GPIOs from `gpio_base + base_addr_pin`. Algorithm 0 is known.
#[derive(Clone, Copy)]
pub struct AlgAddr {
    pub alg: u8,
    pub gpio_base: u8,
    pub base_addr_pin: u8,
    pub num_addr_pins: u8,
}

// The data PIO drives from `gpio_base + base_data_pin`. Algorithms 0 and 1 are known.
#[derive(Clone, Copy)]
pub struct AlgData {
    pub alg: u8,
    pub gpio_base: u8,
    pub base_data_pin: u8,
}

// Algorithm 0 is known; bit mode 0 is 8 bits, 1 is 16.
#[derive(Clone, Copy)]
pub struct AlgDma {
    pub alg: u8,
    pub bit_mode: u8,
}

// The first ROM's select, in a Multi slot, is `gpio_base + first_rom_cs_base`. Algorithm 0 is AlgCs0.
#[derive(Clone, Copy)]
pub struct AlgCs {
    pub alg: u8,
    pub gpio_base: u8,
    pub first_rom_cs_base: u8,
}

// A ROM's size in bytes and its pin map: GPIOs of its lines, lowest first, ended by 255. The map is no Option, since what a ROM's lines
// reach is said of their bytes whether or not the flag is set.
#[derive(Clone, Copy)]
pub struct Rom {
    pub has_map: bool,
    pub chip_size: u32,
    pub addr: [u8; 32],
    pub data_lines: [u8; 32],
}

// The kinds of override that force a GPIO; 0 and 1 force nothing. They are the top two bits of a byte, and the rule on overrides is said of
// any kind: numbers, and no enum.
pub const FORCE_LOW: u8 = 2;

pub const FORCE_HIGH: u8 = 3;

// A slot as read-back takes it; counts say how many overrides and ROMs there are. The layout is no Option: its fields hold any bytes where
// the flag is not set, and windows and pins are said of them all the same.
#[derive(Clone, Copy)]
pub struct StoredSlot {
    // Declared size in bytes.
    pub size: u32,
    pub slot_type: SlotType,
    pub has_layout: bool,
    pub alg_addr: AlgAddr,
    pub alg_data: AlgData,
    pub alg_dma: AlgDma,
    pub alg_cs: AlgCs,
    // GPIO in the low six bits, kind in the top two.
    pub overrides: [u8; 64],
    pub num_overrides: u8,
    pub x1: Candidates,
    pub x2: Candidates,
    pub roms: [Rom; 4],
    pub num_roms: u8,
}
