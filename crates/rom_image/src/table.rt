// The table, at the front of a buffer.
ghost use Rattle.std.specs.Prelude.{◌≡◌, ◌++◌, length, drop};
ghost use Rattle.build_args.specs.Faults.{table_size};
ghost use Rattle.rom_image.specs.Entry.{table_of};
ghost use Rattle.rom_image.specs.Build.{pad_byte};
ghost use Rattle.rom_image.specs.Design.Past.{PastTests};

use build_args::BuildArgs;
use build_wiring::sources::sources;
use build_wiring::wiring::wiring;
use table_fill::fill_by;
use words::{ByteOrder, pad_word};

// What an entry's bytes are where no word stands.
const PAD_BYTE: u8 = 0xAA;

// Writes the table to the front of a buffer.
pub fn fill(order: ByteOrder, b: BuildArgs, images: &[u8], table: &mut [u8])
    requires { PastTests b images.now (length table.old) }
    ensures { table.new ≡ table_of pad_byte order b images.now
        ++ drop (table_size b.description b.addr) table.old }
{
    let d = b.description;
    let a = b.addr;
    let c = b.cs_data;
    let spans = b.spans;
    let pad = pad_word(d.word_bytes as usize, PAD_BYTE);
    fill_by(
        order,
        wiring(d, a, c),
        sources(d, spans),
        pad,
        images,
        1u32 << a.num_addr_pins,
        table,
    );
}
