// The rows in order.
ghost use Rattle.std.specs.Prelude.{◌≡◌};
ghost use Rattle.table_fill.specs.Design.Entries.{Filling, table_by};

use crate::row::{Row, write_row};
use crate::scramble::scrambles;
use crate::sources::{Chips, Source};
use crate::wiring::{Part, Wiring};
use running_address::{moves, next_row};
use table_rows::RowTables;
use words::ByteOrder;

// Writes the first entries to the front of a buffer, row by row. What the first index of a row says is kept from row to row.
pub fn fill_by(
    order: ByteOrder,
    w: Wiring,
    sources: [Source; 8],
    pad: u32,
    images: &[u8],
    entries: u32,
    table: &mut [u8],
)
    requires { Filling w sources pad images.now entries table.old }
    ensures { table.new ≡ table_by order w sources pad images.now entries table.old }
{
    let lines = w.address;
    let picks = w.picks;
    let moved = moves(&lines, w.num_lines as usize);
    let picking = moves(&picks, w.num_picks as usize);
    let lows = scrambles(w, 0);
    let highs = scrambles(w, 8);
    let tables = RowTables {
        moves: &moved,
        lows: &lows,
        highs: &highs,
    };
    let from = Chips {
        sources: sources,
        pad: pad,
    };
    let mut address: u32 = 0;
    let mut picked: u32 = 0;
    for k in 0..entries.div_ceil(256) {
        let i = 256 * k;
        let row = Row {
            first: i,
            count: u32::min(256, entries - i),
            part: Part {
                address: address,
                picks: picked,
            },
        };
        write_row(order, w, from, row, &picking, tables, images, table);
        address = next_row(&moved, address, i);
        picked = next_row(&picking, picked, i);
    }
}
