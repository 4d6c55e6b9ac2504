// The refusals before any choice, in their order.
ghost use Rattle.std.specs.Prelude.{◌≡◌, true};
ghost use Rattle.cs_pins.specs.Pins.{cs_search_in};
ghost use Rattle.cs_pins.specs.Design.Numbered.{NumberedBy};
ghost use Rattle.cs_data_layout.specs.Search.{given_in, missing_layout, rom_too_large, earlier};

use crate::layout::handed;
use addr_layout::layout::{AddrLayout, layout_in};
use control::cs_config::line_ignored;
use cs_checked::pins_fault;
use cs_pins::Numbering;
use domain::qualifiers::qualifiers_in;
use refusal::Refusal;
use slot::description::Description;

// Whether the layout that is handed in keeps to the domain, and the qualifiers beside it.
pub fn given_in(d: Description, a: Option<AddrLayout>) -> bool
    ensures { result ≡ given_in d a }
{
    match a {
        None => true,
        Some(layout) => {
            let gpios = layout.gpios;
            let qualifiers = d.qualifiers;
            let list_in = qualifiers_in(qualifiers, d.num_qualifiers, gpios, layout.num_lines);
            layout_in(layout) & list_in
        }
    }
}

fn missing_layout(d: Description, a: Option<AddrLayout>) -> Option<Refusal>
    ensures { result ≡ missing_layout d a }
{
    (a.is_none() & (0 < d.num_qualifiers)).then_some(Refusal::MissingAddrPinGpios)
}

// Excess lines select by cs1's setting.
fn too_large(d: Description, h: AddrLayout) -> Option<Refusal>
    ensures { result ≡ rom_too_large d h }
{
    let config = d.cs_config;
    ((0 < h.num_excess) & line_ignored(2, config)).then_some(Refusal::RomTooLargeNoCsConfig)
}

// The first refusal of all; `pins` are those that are numbered.
pub fn earlier(d: Description, a: Option<AddrLayout>, pins: Numbering) -> Option<Refusal>
    requires { (cs_search_in d ≡ true) × NumberedBy d pins }
    ensures { result ≡ earlier d a }
{
    missing_layout(d, a).or(too_large(d, handed(a)).or(pins_fault(d, pins.list)))
}
