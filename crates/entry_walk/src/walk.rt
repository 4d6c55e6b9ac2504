// The entries in order, row by row.
ghost use Rattle.entry_rows.specs.Design.Held.{Onward, ReadBy};

use crate::maps::{parts, parts_of};
use entry_rows::{Row, read_row};
use entry_words::Reading;

// Reads the entries up to the first that disagrees.
pub fn walk(
    r: Reading,
    stored: &[u8],
    entries: u32,
    output: &mut [u8],
    marks: &mut [u8],
) -> Result<(), u32>
    requires { Onward r stored.now output.old marks.old 0 entries }
    ensures { ReadBy r stored.now entries
        output.old marks.old result output.new marks.new }
{
    let address = r.address;
    let data_lines = r.data_lines;
    let lows = parts(address, 0);
    let low_bytes = parts(data_lines, 0);
    let high_bytes = parts(data_lines, 8);
    // The rows are counted, since `step_by(256)` would call `next` 256 times a row.
    for k in 0..entries.div_ceil(256) {
        let start = 256 * k;
        let row = Row {
            high: parts_of(address, start),
            start,
            count: (entries - start).min(256),
        };
        read_row(
            r,
            row,
            &lows,
            &low_bytes,
            &high_bytes,
            stored,
            output,
            marks,
        )?;
    }
    Ok(())
}
