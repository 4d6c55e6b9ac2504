// The select and data layout: the PIO that detects the select and drives the data sees a window of GPIOs from `gpio_base`,
// and the base pins are counted from there.
ghost use Rattle.std.specs.Prelude.{◌≡◌};
ghost use Rattle.cs_data_layout.specs.Layout.{no_cs_data_layout, handed};

use addr_layout::layout::AddrLayout;

// A select or commoned line. Roles: 0 ce, 1 oe, 2 to 5 cs1 to cs4, 6 X1, 7 X2, 8 half select. The role is a number and no enum: a layout
// is handed in with any, and `cs_data_in` says which are in the domain.
#[derive(Clone, Copy)]
pub struct SelectLine {
    pub role: u8,
    pub gpio: u8,
}

// Address lines in use whose all being high deselects the chip.
#[derive(Clone, Copy)]
pub struct Qualifiers {
    pub base_qualifier_pin: u8,
    pub num_qualifier_pins: u8,
    pub qualifier_inactive_pattern: u8,
}

// Which GPIOs select the chip and carry its data, and which line each serves; base pins are counted from the base.
#[derive(Clone, Copy)]
pub struct CsDataLayout {
    // 0 or 16.
    pub gpio_base: u8,
    pub base_data_pin: u8,
    pub num_data_pins: u8,
    // GPIOs of the data lines; 0 past them.
    pub data_pin_gpios: [u8; 16],
    pub base_cs_pin: u8,
    pub num_cs_pins: u8,
    pub cs_ignore_index: Option<u8>,
    // Select lines, excess address lines last.
    pub select_lines: [SelectLine; 30],
    pub num_select_lines: u8,
    pub commoned_lines: [SelectLine; 6],
    pub num_commoned_lines: u8,
    pub qualifiers: Option<Qualifiers>,
}

// Nothing laid out.
pub fn no_layout() -> CsDataLayout
    ensures { result ≡ no_cs_data_layout }
{
    let no_line = SelectLine { role: 0, gpio: 0 };
    CsDataLayout {
        gpio_base: 0,
        base_data_pin: 0,
        num_data_pins: 0,
        data_pin_gpios: [0u8; 16],
        base_cs_pin: 0,
        num_cs_pins: 0,
        cs_ignore_index: None,
        select_lines: [no_line; 30],
        num_select_lines: 0,
        commoned_lines: [no_line; 6],
        num_commoned_lines: 0,
        qualifiers: None,
    }
}

// The layout that is handed in, all 0 where none is.
pub fn handed(a: Option<AddrLayout>) -> AddrLayout
    ensures { result ≡ handed a }
{
    a.unwrap_or(addr_layout::layout::no_layout())
}
