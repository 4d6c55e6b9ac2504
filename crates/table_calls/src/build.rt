// The build, from the records of a caller that has no structs to its answer as one number.
ghost use Rattle.std.specs.Prelude.{◌≡◌, ◌≤◌, length};
ghost use Rattle.addr_record.specs.AddrRecord.{addr_size};
ghost use Rattle.calls.specs.Order.{order_at};
ghost use Rattle.calls.specs.Calls.{returned, build_result, build_formed, build_from};

use build_args::BuildArgs;
use calls::order;
use calls::order::order_at;
use calls::refused::result;
use rom_image::build_rom_image;
use slot::description::Description;

// Whether the bytes are records of both layouts and of the chips' spans, and the number is a byte order's.
pub fn formed(addr_layout: &[u8], cs_data_layout: &[u8], spans: &[u8], order: u64) -> bool
    ensures { result ≡ build_formed addr_layout.now cs_data_layout.now spans.now order }
{
    addr_record::formed(addr_layout)
        & cs_data_record::formed(cs_data_layout)
        & image_record::formed(spans)
        & order::formed(order)
}

// Builds the table from what the records give, and answers as the build did.
pub fn hand_over(
    order: u64,
    d: Description,
    addr_layout: &[u8],
    cs_data_layout: &[u8],
    spans: &[u8],
    images: &[u8],
    table: &mut [u8],
) -> u64
    requires { addr_size ≤ length addr_layout.now }
    ensures { returned result table.new
        ≡ build_result (build_from (order_at order) d addr_layout.now cs_data_layout.now spans.now images.now
        table.old) }
{
    let args = BuildArgs {
        description: d,
        addr: addr_record::layout_at(addr_layout),
        cs_data: cs_data_record::layout_at(cs_data_layout),
        spans: image_record::spans_at(spans),
    };
    result(build_rom_image(order_at(order), args, images, table))
}
