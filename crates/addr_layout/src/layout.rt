// The address layout: the address PIO reads `num_addr_pins` GPIOs from `gpio_base`, and that number indexes the table.
ghost use Rattle.std.specs.Prelude.{◌≡◌, ◌&&◌, leb, get_or};
ghost use Rattle.gpio.specs.Candidates.{last_gpio};
ghost use Rattle.lists.specs.Each.{each, between};
ghost use Rattle.addr_layout.specs.Layout.{no_layout, all_lines, layout_in};

use gpio::LAST_GPIO;
use gpio::line::line_gpio_in;
use lists::array::all_between;

// Which GPIOs the address PIO reads, and which line each serves.
#[derive(Clone, Copy)]
pub struct AddrLayout {
    pub gpio_base: u8,
    pub num_addr_pins: u8,
    pub x1_gpio: Option<u8>,
    pub x2_gpio: Option<u8>,
    // GPIOs of the lines in use, then of the excess lines; 0 past them.
    pub gpios: [u8; 24],
    // Lines in use: their GPIOs are bits of the table's index.
    pub num_lines: u8,
    // Lines past the table's reach: they become select lines.
    pub num_excess: u8,
}

// Nothing laid out.
pub fn no_layout() -> AddrLayout
    ensures { result ≡ no_layout }
{
    AddrLayout {
        gpio_base: 0,
        num_addr_pins: 0,
        x1_gpio: None,
        x2_gpio: None,
        gpios: [0u8; 24],
        num_lines: 0,
        num_excess: 0,
    }
}

fn lines_in(l: AddrLayout) -> bool
    ensures { result ≡ (leb (all_lines l) 24 && each (all_lines l) (λ k. between 0 last_gpio (get_or l.gpios k 0))) }
{
    let all = l.num_lines as u32 + l.num_excess as u32;
    if 24 < all {
        return false;
    }
    let gpios = l.gpios;
    all_between(&gpios, all as u8, 0, LAST_GPIO)
}

// Whether a layout that is handed in keeps to the domain.
pub fn layout_in(l: AddrLayout) -> bool
    ensures { result ≡ layout_in l }
{
    let x1 = l.x1_gpio;
    let x2 = l.x2_gpio;
    (l.gpio_base <= LAST_GPIO)
        & (l.num_addr_pins <= 48)
        & (line_gpio_in(x1) & line_gpio_in(x2))
        & lines_in(l)
}
