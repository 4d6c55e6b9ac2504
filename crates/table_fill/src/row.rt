// The entries of a row.
ghost use Rattle.table_fill.specs.Design.Rows.{RowIn, RowWritten};

use crate::sources::{Chips, all_stand, mask_of, none_stand, raw};
use crate::wiring::{Part, Wiring};
use running_address::next_address;
use table_rows::{ChipRow, RowTables, scrambled, write_pads, write_words};
use words::{ByteOrder, put_word};

// A row: its first index, how many there are, and what the first one says.
#[derive(Clone, Copy)]
pub struct Row {
    pub first: u32,
    pub count: u32,
    pub part: Part,
}

// Each entry asks the source that its index picks. The address and the bits that pick are kept from entry to entry.
fn each_entry(
    order: ByteOrder,
    w: Wiring,
    bytes: usize,
    from: Chips,
    row: Row,
    picking: &[u32],
    tables: RowTables,
    images: &[u8],
    table: &mut [u8],
)
    requires { RowIn w bytes from.sources from.pad row tables.moves.now picking.now tables.lows.now tables.highs.now images.now table.old }
    ensures { RowWritten order w bytes from.sources from.pad row images.now table.old table.new }
{
    let RowTables { moves, lows, highs } = tables;
    let sources = from.sources;
    let mut address = row.part.address;
    let mut picks = row.part.picks;
    for q in 0..row.count {
        let source = sources[picks as usize];
        let word = raw(order, images, bytes, source, from.pad, address);
        let entry = scrambled(bytes, lows, highs, word);
        put_word(table, (row.first + q) as usize * bytes, bytes, entry);
        address = next_address(moves, address, row.first + q);
        picks = next_address(picking, picks, row.first + q);
    }
}

// A row of words of two bytes, with a loop of its own for each order.
fn words_row(
    order: ByteOrder,
    w: Wiring,
    from: Chips,
    row: Row,
    picking: &[u32],
    tables: RowTables,
    images: &[u8],
    table: &mut [u8],
)
    requires { RowIn w 2 from.sources from.pad row tables.moves.now picking.now tables.lows.now tables.highs.now images.now table.old }
    ensures { RowWritten order w 2 from.sources from.pad row images.now table.old table.new }
{
    match order {
        ByteOrder::LowFirst => each_entry(
            ByteOrder::LowFirst,
            w,
            2,
            from,
            row,
            picking,
            tables,
            images,
            table,
        ),
        ByteOrder::HighFirst => each_entry(
            ByteOrder::HighFirst,
            w,
            2,
            from,
            row,
            picking,
            tables,
            images,
            table,
        ),
    }
}

// Any row, with a loop of its own for each width.
fn any_row(
    order: ByteOrder,
    w: Wiring,
    from: Chips,
    row: Row,
    picking: &[u32],
    tables: RowTables,
    images: &[u8],
    table: &mut [u8],
)
    requires { RowIn w w.word_bytes from.sources from.pad row tables.moves.now picking.now tables.lows.now tables.highs.now images.now table.old }
    ensures { RowWritten order w w.word_bytes from.sources from.pad row images.now table.old table.new }
{
    if w.word_bytes == 1 {
        each_entry(order, w, 1, from, row, picking, tables, images, table);
    } else if w.word_bytes == 2 {
        words_row(order, w, from, row, picking, tables, images, table);
    } else {
        each_entry(order, w, 0, from, row, picking, tables, images, table);
    }
}

// Writes a row: of one chip's words, of pads, or any other. Where no line that picks is at one of the low eight positions, the row picks one
// chip, and its addresses go from the first index's up to that with all lines of these positions.
pub fn write_row(
    order: ByteOrder,
    w: Wiring,
    from: Chips,
    row: Row,
    picking: &[u32],
    tables: RowTables,
    images: &[u8],
    table: &mut [u8],
)
    requires { RowIn w w.word_bytes from.sources from.pad row tables.moves.now picking.now tables.lows.now tables.highs.now images.now table.old }
    ensures { RowWritten order w w.word_bytes from.sources from.pad row images.now table.old table.new }
{
    let bytes = w.word_bytes as usize;
    let n = w.num_lines as usize;
    let sources = from.sources;
    let source = sources[row.part.picks as usize];
    let mask = mask_of(source);
    let one_chip = picking[7] == 0;
    let lines = w.address;
    if one_chip & all_stand(source, mask, row.part.address + tables.moves[7]) {
        let words = ChipRow {
            first: row.first,
            count: row.count,
            address: row.part.address,
            start: source.start,
            mask: mask,
        };
        write_words(order, bytes, words, &lines, n, tables, images, table);
    } else if one_chip & none_stand(source, row.part.address) {
        let entry = scrambled(bytes, tables.lows, tables.highs, from.pad);
        write_pads(bytes, entry, row.first, row.count, table);
    } else {
        any_row(order, w, from, row, picking, tables, images, table);
    }
}
