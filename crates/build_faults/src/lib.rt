// What a build is refused for, in its order.
#![tactic(auto)]

ghost use Rattle.std.specs.Prelude.{◌≡◌, true, false, ◌≤◌, ◌<◌, ◌^◌, get_or};
ghost use Rattle.slot.specs.Description.{no_chip};
ghost use Rattle.build_args.specs.Positions.{data_base};
ghost use Rattle.build_args.specs.Domain.{build_in};
ghost use Rattle.build_args.specs.Faults.{table_size, table_too_large, address_in, data_positions_in, missing_at, short_at, lines_fault, images_fault, lent_fault, build_fault};
ghost use Rattle.build_faults.specs.Design.Sizes.{TableIn, SizesIn};
ghost use Rattle.refusal.specs.First.{first_of};

use addr_layout::layout::AddrLayout;
use build_args::BuildArgs;
use build_args::images::{ImageSpan, bytes_lent, chip_size, span_at};
use build_args::lines::picks_in;
use build_args::positions::data_base;
use cs_data_layout::layout::CsDataLayout;
use picks::chips_fit;
use picks::positions::positions_in;
use refusal::Refusal;
use slot::description::Description;

// Bytes of the table.
pub fn table_size(d: Description, a: AddrLayout) -> u64
    requires { TableIn d a }
    ensures value { result ≡ table_size d a }
    ensures upper_bound { result ≤ 2 ^ 32 }
{
    (1u64 << a.num_addr_pins) * (d.word_bytes as u64)
}

// Whether the table has more bytes than the slot's largest. With 32 and more pins it has, and nothing is shifted.
fn too_large(d: Description, a: AddrLayout) -> bool
    requires { SizesIn d }
    ensures value { result ≡ table_too_large d a }
    ensures num_addr_pins_bound { result ≡ false → a.num_addr_pins < 32 }
{
    if 31 < a.num_addr_pins {
        return true;
    }
    (d.max_image_size as u64) < table_size(d, a)
}

// Whether each address line in use has a position.
fn address_in(a: AddrLayout) -> bool
    ensures { result ≡ address_in a }
{
    let gpios = a.gpios;
    positions_in(&gpios, a.num_lines, a.gpio_base)
}

// Whether each data line has a position.
fn lines_in(c: CsDataLayout) -> bool
    requires { data_base c ≤ 255 }
    ensures { result ≡ data_positions_in c }
{
    let gpios = c.data_pin_gpios;
    positions_in(&gpios, c.num_data_pins, data_base(c))
}

// The first chip without bytes.
fn missing(spans: [ImageSpan; 4], chips: u8) -> Option<Refusal>
    ensures { result ≡ first_of chips (missing_at spans) }
{
    let mut fault = None;
    for k in 0..chips {
        let span = span_at(spans, k as usize);
        fault = fault.or((!span.present).then_some(Refusal::MissingImageData(k)));
    }
    fault
}

// The first chip with fewer bytes than its size.
fn short(d: Description, images: &[u8], spans: [ImageSpan; 4]) -> Option<Refusal>
    ensures { result ≡ first_of d.num_chips (short_at d images.now spans) }
{
    let n = d.num_chips;
    let mut fault = None;
    for k in 0..n {
        let lent = bytes_lent(images, span_at(spans, k as usize));
        let size = chip_size(d, k) as usize;
        fault = fault.or((lent < size).then_some(Refusal::ShortImageData(k)));
    }
    fault
}

// The refusals for the chips' bytes: no chip without any, then none with too few.
fn images_fault(d: Description, images: &[u8], spans: [ImageSpan; 4]) -> Option<Refusal>
    ensures { result ≡ images_fault d images.now spans }
{
    let no_bytes = missing(spans, d.num_chips);
    let few_bytes = short(d, images, spans);
    no_bytes.or(few_bytes)
}

// The refusals for the chips' bytes and the lent table.
fn lent_fault(
    d: Description,
    a: AddrLayout,
    images: &[u8],
    spans: [ImageSpan; 4],
    lent: usize,
) -> Option<Refusal>
    requires { TableIn d a }
    ensures { result ≡ lent_fault d a images.now spans lent }
{
    let buffer = ((lent as u64) < table_size(d, a)).then_some(Refusal::ShortBuffer);
    images_fault(d, images, spans).or(buffer)
}

// The refusals for the lines and the number of chips.
fn lines_fault(d: Description, a: AddrLayout, c: CsDataLayout) -> Option<Refusal>
    requires { data_base c ≤ 255 }
    ensures { result ≡ lines_fault d a c }
{
    let set_type = d.set_type;
    let address = (!address_in(a)).then_some(Refusal::BadPosition);
    let chips = (!chips_fit(set_type, d.num_chips)).then_some(Refusal::InvalidConfig);
    let other = (!(picks_in(d, a, c) & lines_in(c))).then_some(Refusal::BadPosition);
    address.or(chips.or(other))
}

// The first refusal of all, for a table of `lent` bytes.
pub fn build_fault(b: BuildArgs, images: &[u8], lent: usize) -> Option<Refusal>
    requires { build_in b ≡ true }
    ensures { result ≡ build_fault b images.now lent }
{
    let d = b.description;
    let a = b.addr;
    let c = b.cs_data;
    let spans = b.spans;
    if too_large(d, a) {
        return Some(Refusal::RomTableTooLarge);
    }
    lines_fault(d, a, c).or(lent_fault(d, a, images, spans, lent))
}
