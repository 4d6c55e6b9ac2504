// Where the data lines of a layout are counted from.
ghost use Rattle.std.specs.Prelude.{◌≡◌, ◌≤◌};
ghost use Rattle.build_args.specs.Positions.{data_base};

use cs_data_layout::layout::CsDataLayout;

// The lowest GPIO that the data PIO drives.
pub fn data_base(c: CsDataLayout) -> u8
    requires { data_base c ≤ 255 }
    ensures { result ≡ data_base c }
{
    c.gpio_base + c.base_data_pin
}
