// The positions of all lines.
ghost use Rattle.std.specs.Prelude.{◌≡◌, ◌≤◌};
ghost use Rattle.lists.specs.Tab.{tab};
ghost use Rattle.build_args.specs.Positions.{data_base, line_position, data_position};
ghost use Rattle.build_args.specs.Picks.{pick_position};
ghost use Rattle.build_wiring.specs.Design.Wiring.{wiring_of};

use addr_layout::layout::AddrLayout;
use build_args::lines::pick_of;
use build_args::positions::data_base;
use cs_data_layout::layout::CsDataLayout;
use picks::num_picks;
use picks::positions::{positions, x_position};
use slot::description::Description;
use table_fill::Wiring;

fn address_positions(a: AddrLayout) -> [u8; 24]
    ensures { result ≡ tab 24 (line_position a) }
{
    positions(a.gpio_base, a.gpios)
}

fn data_positions(c: CsDataLayout) -> [u8; 16]
    requires { data_base c ≤ 255 }
    ensures { result ≡ tab 16 (data_position c) }
{
    positions(data_base(c), c.data_pin_gpios)
}

fn pick_positions(d: Description, a: AddrLayout, c: CsDataLayout) -> [u8; 3]
    ensures { result ≡ tab 3 (pick_position d a c) }
{
    let set_type = d.set_type;
    let mut out = [0u8; 3];
    for k in 0..3 {
        out[k] = x_position(a.gpio_base, pick_of(set_type, a, c, k as u8));
    }
    out
}

// The positions that the lines of both layouts have in an index and in an entry.
pub fn wiring(d: Description, a: AddrLayout, c: CsDataLayout) -> Wiring
    requires { data_base c ≤ 255 }
    ensures { result ≡ wiring_of d a c }
{
    let set_type = d.set_type;
    Wiring {
        address: address_positions(a),
        num_lines: a.num_lines,
        picks: pick_positions(d, a, c),
        num_picks: num_picks(set_type, d.num_chips),
        data_lines: data_positions(c),
        num_data: c.num_data_pins,
        word_bytes: d.word_bytes,
    }
}
