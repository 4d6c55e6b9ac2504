// The GPIO of a line that may have none.
ghost use Rattle.std.specs.Prelude.{◌≡◌};
ghost use Rattle.gpio.specs.Line.{line_gpio_in};

use crate::LAST_GPIO;

// Whether the GPIO of a line, if it has one, is a GPIO of the RP2350.
pub fn line_gpio_in(line: Option<u8>) -> bool
    ensures { result ≡ line_gpio_in line }
{
    match line {
        None => true,
        Some(g) => g <= LAST_GPIO,
    }
}
