// The four calls in turn on lent buffers: both searches, the build and read-back. That a well wired slot which they accept reads back as
// what its chips hold is their contract, by the law of round_trip, so that a bench can check itself by it.
#![tactic(auto)]

mod stored; // what read-back is given of a found layout

ghost use Rattle.std.specs.Prelude.{◌≡◌, true, ◌≤◌, length};
ghost use Rattle.build_args.specs.Faults.{table_size};
ghost use Rattle.rom_image.specs.Build.{build_of};
ghost use Rattle.cs_data_layout.specs.Search.{cs_data_answer};
ghost use Rattle.unscramble.specs.Recovered.{read_back};
ghost use Rattle.round_trip.specs.Design.Readable.{Readable};
ghost use Rattle.round_trip.specs.Chain.{trip, read_of, build_trip, select_trip, round_trip_of, AsDemanded};

use crate::stored::stored_slot;
use addr_layout::derive_addr_layout;
use addr_layout::layout::AddrLayout;
use build_args::BuildArgs;
use build_args::images::ImageSpan;
use build_faults::table_size;
use cs_data_layout::derive_cs_data_layout;
use refusal::Refusal;
use rom_image::build_rom_image;
use slot::description::Description;
use unscramble::unscramble_slot;
use words::ByteOrder;

// Reads the table back that a build has left at the front of a buffer.
fn read_table(
    order: ByteOrder,
    b: BuildArgs,
    table: &[u8],
    output: &mut [u8],
    marks: &mut [u8],
) -> Result<(), Refusal>
    requires { Readable b × (table_size b.description b.addr ≤ length table.now) }
    ensures { trip result table.now output.new marks.new
        ≡ read_of order b table.now output.old marks.old }
{
    let d = b.description;
    let a = b.addr;
    let c = b.cs_data;
    let size = table_size(d, a) as usize;
    unscramble_slot(order, stored_slot(d, a, c), &table[0..size], output, marks)
}

// The build by the layouts found, and read-back of its table.
fn build_and_read(
    order: ByteOrder,
    b: BuildArgs,
    images: &[u8],
    table: &mut [u8],
    output: &mut [u8],
    marks: &mut [u8],
) -> Result<(), Refusal>
    ensures { trip result table.new output.new marks.new
        ≡ build_trip order b output.old marks.old (build_of order b images.now table.old) }
{
    build_rom_image(order, b, images, table)?;
    read_table(order, b, table, output, marks)
}

// The select search by the address layout found, and what follows it.
fn select_and_build(
    order: ByteOrder,
    d: Description,
    a: AddrLayout,
    images: &[u8],
    spans: [ImageSpan; 4],
    table: &mut [u8],
    output: &mut [u8],
    marks: &mut [u8],
) -> Result<(), Refusal>
    ensures { trip result table.new output.new marks.new
        ≡ select_trip order d a images.now spans table.old output.old marks.old
        (cs_data_answer d (Some a)) }
{
    let c = derive_cs_data_layout(d, Some(a))?;
    let args = BuildArgs {
        description: d,
        addr: a,
        cs_data: c,
        spans,
    };
    build_and_read(order, args, images, table, output, marks)
}

// Both searches, the build and read-back in turn. The first that refuses answers; a well wired slot that is not refused reads back as
// its chips.
pub fn round_trip(
    order: ByteOrder,
    d: Description,
    images: &[u8],
    spans: [ImageSpan; 4],
    table: &mut [u8],
    output: &mut [u8],
    marks: &mut [u8],
) -> Result<(), Refusal>
    ensures marks_after { trip result table.new output.new marks.new
        ≡ round_trip_of order d images.now spans table.old output.old marks.old }
    ensures as_demanded { AsDemanded order d images.now spans table.old output.old marks.old
        (read_back result output.new marks.new) }
{
    let a = derive_addr_layout(d)?;
    select_and_build(order, d, a, images, spans, table, output, marks)
}
