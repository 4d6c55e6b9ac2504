// A chip's bytes written as an Intel HEX text.
#![tactic(auto)]

mod record; // a record's text

ghost use Rattle.std.specs.Prelude.{◌≡◌, ◌+◌, ◌-◌, ◌≤◌, ◌^◌, min, length};
ghost use Rattle.laid_bytes.specs.Laid.{laid};
ghost use Rattle.hex_write.specs.Text.{ahead, data_bytes, pieces, record_text};
ghost use Rattle.hex_write.specs.Length.{later_blocks, text_length};
ghost use Rattle.hex_write.specs.Design.Room.{RoomAhead, RoomForData, RoomForPieces};
ghost use Rattle.hex_write.specs.Write.{wrote_as, write_of};

use crate::record::put_record;
use hex_base::too_long;
use laid_bytes::put;
use refusal::Refusal;

// How many blocks of 64 KiB a chip of so many bytes reaches into after the first.
fn later_blocks(size: usize) -> usize
    ensures { result ≡ later_blocks size }
{
    size.saturating_sub(1) / 65536
}

// How long the text of a chip of so many bytes is.
fn text_length(size: usize) -> usize
    requires { size ≤ 2 ^ 24 }
    ensures { result ≡ text_length size }
{
    12 * ((size + 15) / 16) + 2 * size + 16 * later_blocks(size) + 12
}

// Writes the type 04 record that stands ahead of data record k, if one does, and says where it ends.
fn put_ahead(text: &mut [u8], at: usize, k: usize) -> usize
    requires { RoomAhead text.old at k }
    ensures value { result ≡ at + length (ahead k) }
    ensures text_after { text.new ≡ laid text.old at (ahead k) }
{
    if 0 < k {
        if k % 4096 == 0 {
            let block = k / 4096;
            let bytes = [2, 0, 0, 4, (block / 256) as u8, (block % 256) as u8];
            return put_record(text, at, &bytes);
        }
    }
    at
}

// Writes data record k of a chip, and says where it ends.
fn put_data(text: &mut [u8], at: usize, chip: &[u8], k: usize) -> usize
    requires { RoomForData text.old at chip.now k }
    ensures value { result ≡ at + length (record_text (data_bytes chip.now k)) }
    ensures text_after { text.new ≡ laid text.old at (record_text (data_bytes chip.now k)) }
{
    let from = 16 * k;
    let data = &chip[from..chunk_end(chip.len(), from)];
    let mut bytes = [0u8; 20];
    bytes[0] = data.len() as u8;
    bytes[1] = (from / 256 % 256) as u8;
    bytes[2] = (from % 256) as u8;
    let end = put(&mut bytes, 4, data);
    put_record(text, at, &bytes[..end])
}

// Where the chunk ends that begins at a place.
fn chunk_end(size: usize, from: usize) -> usize
    requires { from ≤ size }
    ensures { result ≡ from + min 16 (size - from) }
{
    from + (size - from).min(16)
}

// Writes all data records of a chip, and says where they end.
fn put_chip(text: &mut [u8], chip: &[u8]) -> usize
    requires { RoomForPieces text.old chip.now }
    ensures value { result ≡ length (pieces chip.now) }
    ensures text_after { text.new ≡ laid text.old 0 (pieces chip.now) }
{
    let count = (chip.len() + 15) / 16;
    let mut at: usize = 0;
    for k in 0..count {
        at = put_ahead(text, at, k);
        at = put_data(text, at, chip, k);
    }
    at
}

// Writes a chip's text, and says how long it is.
pub fn write_hex(chip: &[u8], text: &mut [u8]) -> Result<usize, Refusal>
    ensures { wrote_as result text.new ≡ write_of chip.now text.old }
{
    if too_long(chip.len()) {
        return Err(Refusal::OutOfDomain);
    }
    let n = text_length(chip.len());
    if text.len() < n {
        return Err(Refusal::ShortBuffer);
    }
    let end = put_chip(text, chip);
    put(text, end, b":00000001FF\n");
    Ok(n)
}
