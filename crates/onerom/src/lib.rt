// The calls of the C interface, on numbers and byte slices: onerom_c hands each on to C. docs/INTERFACE.md has the records byte by byte
// and each call's answers; include/onerom.h declares the calls for C.
#![tactic(auto)]

mod page; // the pin page
mod trip; // the round trip's answer, handed over
mod wiring; // the wiring's test

ghost use Rattle.std.specs.Prelude.{◌≡◌};
ghost use Rattle.calls.specs.Calls.{addr_call, cs_data_call, build_call, read_back_call};
ghost use Rattle.calls.specs.Calls.{returned, read_returned, search_result, build_result, read_result};
ghost use Rattle.calls.specs.Hex.{read_hex_call, write_hex_call, hex_write_result};
ghost use Rattle.calls.specs.Page.{page_call};
ghost use Rattle.hex_read.specs.Read.{fault_line};
ghost use Rattle.onerom.specs.Trip.{trip_call, trip_returned, trip_result, CallDemanded};
ghost use Rattle.onerom.specs.Wired.{wired_call};

use addr_layout::derive_addr_layout;
use addr_record::{given_at, given_formed};
use calls::refused::{packed, result, write_result};
use cs_data_layout::derive_cs_data_layout;
use description_record::description_at;
use hex_read::{fault_line, read_hex};
use hex_write::write_hex;
use refusal::Refusal;
use search_calls::{addr, cs_data};
use table_calls::{build, read_back};

// Finds the address layout of the slot that the record describes, and writes it as a record.
pub fn onerom_derive_addr_layout(description: &[u8], layout: &mut [u8]) -> u64
    ensures { returned result layout.new ≡ search_result (addr_call description.now layout.old) }
{
    if !description_record::formed(description) {
        return packed(Refusal::OutOfDomain);
    }
    let d = description_at(description);
    addr::hand_over(derive_addr_layout(d), layout)
}

// Finds the select and data layout of the slot that the record describes, with an address layout or, by no bytes, without
// one, and writes it as a record.
pub fn onerom_derive_cs_data_layout(
    description: &[u8],
    addr_layout: &[u8],
    layout: &mut [u8],
) -> u64
    ensures { returned result layout.new
        ≡ search_result (cs_data_call description.now addr_layout.now layout.old) }
{
    if !given_formed(addr_layout) {
        return packed(Refusal::OutOfDomain);
    }
    if !description_record::formed(description) {
        return packed(Refusal::OutOfDomain);
    }
    let d = description_at(description);
    cs_data::hand_over(derive_cs_data_layout(d, given_at(addr_layout)), layout)
}

// Builds the table of the slot that the record describes, from its layouts and the chips' bytes: `images` has them all, `spans` says
// where in it each chip's stand, and `order` which byte of their words comes first.
pub fn onerom_build_rom_image(
    description: &[u8],
    addr_layout: &[u8],
    cs_data_layout: &[u8],
    spans: &[u8],
    images: &[u8],
    order: u64,
    table: &mut [u8],
) -> u64
    ensures { returned result table.new
        ≡ build_result (build_call description.now addr_layout.now cs_data_layout.now spans.now
        images.now order table.old) }
{
    if !build::formed(addr_layout, cs_data_layout, spans, order) {
        return packed(Refusal::OutOfDomain);
    }
    let decoded = description_record::decode(description);
    let outcome = decoded.answer;
    match outcome {
        Ok(()) => {
            build::hand_over(
                order,
                decoded.description,
                addr_layout,
                cs_data_layout,
                spans,
                images,
                table,
            )
        }
        Err(why) => packed(why),
    }
}

// Reads back the slot that the record stores, from its table: each ROM's words, chip after chip, their bytes in the order asked for, and
// a mark for each word.
pub fn onerom_unscramble_slot(
    slot: &[u8],
    stored: &[u8],
    order: u64,
    output: &mut [u8],
    marks: &mut [u8],
) -> u64
    ensures { read_returned result output.new marks.new
        ≡ read_result (read_back_call slot.now stored.now order output.old marks.old) }
{
    if !read_back::formed(slot, order) {
        return packed(Refusal::OutOfDomain);
    }
    read_back::hand_over(order, slot, stored, output, marks)
}

// Makes both layouts, the table and its read-back in turn. `images` has the chips' bytes in one order, and `spans` says where in it each
// chip's stand.
pub fn onerom_round_trip(
    description: &[u8],
    spans: &[u8],
    images: &[u8],
    order: u64,
    table: &mut [u8],
    output: &mut [u8],
    marks: &mut [u8],
) -> u64
    ensures marks_after { trip_returned result table.new output.new marks.new
        ≡ trip_result (trip_call description.now spans.now images.now order table.old
        output.old marks.old) }
    ensures call_demanded { CallDemanded description.now spans.now images.now order table.old
        output.old marks.old (read_returned result output.new marks.new) }
{
    if !trip::formed(spans, order) {
        return packed(Refusal::OutOfDomain);
    }
    let decoded = description_record::decode(description);
    let outcome = decoded.answer;
    match outcome {
        Ok(()) => {
            trip::hand_over(
                order,
                decoded.description,
                spans,
                images,
                table,
                output,
                marks,
            )
        }
        Err(why) => packed(why),
    }
}

// Tests whether the slot that the record describes is well wired, with the address layout that was found: 0 if it is, 1 if not.
pub fn onerom_well_wired(description: &[u8], addr_layout: &[u8]) -> u64
    ensures { result ≡ wired_call description.now addr_layout.now }
{
    if !addr_record::formed(addr_layout) {
        return packed(Refusal::OutOfDomain);
    }
    let decoded = description_record::decode(description);
    let outcome = decoded.answer;
    match outcome {
        Ok(()) => wiring::tested(decoded.description, addr_layout),
        Err(why) => packed(why),
    }
}

// Reads an Intel HEX text into a chip, which is the whole lent slice.
pub fn onerom_read_hex(text: &[u8], chip: &mut [u8]) -> u64
    ensures { returned result chip.new ≡ read_hex_call text.now chip.old }
{
    result(read_hex(text, chip))
}

// Writes a chip's bytes as an Intel HEX text, and returns its length.
pub fn onerom_write_hex(chip: &[u8], text: &mut [u8]) -> u64
    ensures { returned result text.new ≡ write_hex_call chip.now text.old }
{
    write_result(write_hex(chip, text))
}

// The line, from 1, of the first record at fault where a text is read into a chip of `chip_size` bytes; 0 where none is.
pub fn onerom_hex_fault_line(text: &[u8], chip_size: u64) -> u64
    ensures { result ≡ fault_line text.now chip_size }
{
    fault_line(text, chip_size as usize) as u64
}

// Writes the pin page of the layouts that the records give: the role of each GPIO, a row each. Returns its length.
pub fn onerom_write_page(addr_layout: &[u8], cs_data_layout: &[u8], page: &mut [u8]) -> u64
    ensures { returned result page.new
        ≡ hex_write_result (page_call addr_layout.now cs_data_layout.now page.old) }
{
    if !page::formed(addr_layout, cs_data_layout) {
        return packed(Refusal::OutOfDomain);
    }
    page::hand_over(addr_layout, cs_data_layout, page)
}
