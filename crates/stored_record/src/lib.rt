// The stored slot record: docs/INTERFACE.md gives the place of each number.
#![tactic(auto)]

mod parts; // algorithms, overrides and ROMs at their places

ghost use Rattle.std.specs.Prelude.{◌≡◌};
ghost use Rattle.stored_record.specs.StoredRecord.{stored_at, stored_formed};

use fields::candidates::{pair_at, pair_in};
use fields::four_at;
use lists::array::entry;
use stored_slot::stored::StoredSlot;

// Bytes of a record.
const SIZE: usize = 376;

// What the record stores; of bytes that are no record, what is left of them to read.
pub fn stored_at(b: &[u8]) -> StoredSlot
    ensures { result ≡ stored_at b.now }
{
    StoredSlot {
        size: four_at(b, 0),
        slot_type: parts::slot_type(entry(b, 4)),
        has_layout: entry(b, 5) == 1,
        alg_addr: parts::alg_addr(b),
        alg_data: parts::alg_data(b),
        alg_dma: parts::alg_dma(b),
        alg_cs: parts::alg_cs(b),
        overrides: parts::overrides(b),
        num_overrides: entry(b, 18),
        x1: pair_at(b, 83),
        x2: pair_at(b, 85),
        roms: parts::roms(b),
        num_roms: entry(b, 87),
    }
}

// Whether the bytes are a record.
pub fn formed(b: &[u8]) -> bool
    ensures { result ≡ stored_formed b.now }
{
    let has_layout = entry(b, 5);
    let x1 = pair_in(b, 83);
    let x2 = pair_in(b, 85);
    let roms = parts::roms_formed(b);
    (b.len() == SIZE) & (has_layout <= 1) & x1 & x2 & roms
}
