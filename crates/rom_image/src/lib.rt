// The table: for each index the word of the chip that it picks, its bits at the data lines' positions.
#![tactic(auto)]

mod table; // the entries by the positions of all lines and by where the words of the chips stand

ghost use Rattle.std.specs.Prelude.{◌≡◌};
ghost use Rattle.rom_image.specs.Build.{built, build_of};

use build_args::BuildArgs;
use build_args::in_domain::in_domain;
use build_faults::build_fault;
use refusal::Refusal;
use words::ByteOrder;

// Builds the table of a slot from its layouts and its chips' bytes, which are in one order.
pub fn build_rom_image(
    order: ByteOrder,
    b: BuildArgs,
    images: &[u8],
    table: &mut [u8],
) -> Result<(), Refusal>
    ensures { built result table.new ≡ build_of order b images.now table.old }
{
    if !in_domain(b) {
        return Err(Refusal::OutOfDomain);
    }
    match build_fault(b, images, table.len()) {
        Some(why) => Err(why),
        None => {
            table::fill(order, b, images, table);
            Ok(())
        }
    }
}
