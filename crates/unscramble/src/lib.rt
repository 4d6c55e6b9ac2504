// Read-back: the chips' bytes from a stored table, so that a fitted board can be held against the ROMs that it stands for. A word is
// what the entries for it say; where they disagree, or there is none, the slot is refused.
#![tactic(auto)]

mod reading; // what the entries are read by
mod place; // a word's ROM and address

ghost use Rattle.std.specs.Prelude.{◌≡◌, true, List, ℕ, length};
ghost use Rattle.refusal.specs.First.{or_else};
ghost use Rattle.stored_slot.specs.Stored.{stored_in};
ghost use Rattle.stored_slot.specs.Faults.{roms_fault};
ghost use Rattle.unscramble.specs.Recovered.{read_back, plugin_read, inconsistent, unserved, after_entries, read_after, unscrambled};
ghost use Rattle.unscramble.specs.Design.Past.{PastTests};

use crate::place::fault_of;
use crate::reading::reading;
use laid_bytes::copy;
use refusal::Refusal;
use refusal::first::answered;
use slot::description::ChipSetType;
use stored_faults::roms_fault;
use stored_slot::in_domain::stored_in;
use stored_slot::stored::{SlotType, StoredSlot};
use stored_slot::window::entries;
use table_read::collect;
use words::ByteOrder;

// A plugin is stored as it is.
fn plugin(stored: &[u8], output: &mut [u8]) -> Result<(), Refusal>
    ensures { (marks : List ℕ) → read_back result output.new marks ≡ plugin_read stored.now output.old marks }
{
    if output.len() < stored.len() {
        return Err(Refusal::ShortBuffer);
    }
    copy(stored, output);
    Ok(())
}

// The ROMs of a slot that nothing refuses before its entries are read.
fn read_entries(
    order: ByteOrder,
    s: StoredSlot,
    set_type: ChipSetType,
    stored: &[u8],
    output: &mut [u8],
    marks: &mut [u8],
) -> Result<(), Refusal>
    requires { PastTests s set_type stored.now (length output.old) (length marks.old) }
    ensures { read_back result output.new marks.new
        ≡ after_entries order s set_type stored.now output.old marks.old
        (or_else (inconsistent s set_type stored.now) (unserved s set_type)) }
{
    let outcome = collect(
        reading(order, s, set_type),
        stored,
        entries(s),
        output,
        marks,
    );
    answered(fault_of(s, outcome))
}

fn roms_read(
    order: ByteOrder,
    s: StoredSlot,
    set_type: ChipSetType,
    stored: &[u8],
    output: &mut [u8],
    marks: &mut [u8],
) -> Result<(), Refusal>
    requires { stored_in s ≡ true }
    ensures { read_back result output.new marks.new
        ≡ read_after order s set_type stored.now output.old marks.old
        (roms_fault s set_type stored.now (length output.old) (length marks.old)) }
{
    match roms_fault(s, set_type, stored, output.len(), marks.len()) {
        Some(why) => Err(why),
        None => read_entries(order, s, set_type, stored, output, marks),
    }
}

// Reads a stored slot back: its ROMs' words, chip after chip, their bytes in one order, and a mark for each; a plugin's bytes as they are.
pub fn unscramble_slot(
    order: ByteOrder,
    s: StoredSlot,
    stored: &[u8],
    output: &mut [u8],
    marks: &mut [u8],
) -> Result<(), Refusal>
    ensures { read_back result output.new marks.new
        ≡ unscrambled order s stored.now output.old marks.old }
{
    if !stored_in(s) {
        return Err(Refusal::OutOfDomain);
    }
    if stored.len() != s.size as usize {
        return Err(Refusal::WrongSize);
    }
    let slot_type = s.slot_type;
    match slot_type {
        SlotType::Unknown => Err(Refusal::UnknownSlotType),
        SlotType::Plugin => plugin(stored, output),
        SlotType::Roms(set_type) => roms_read(order, s, set_type, stored, output, marks),
    }
}
