// What a slot of ROMs is refused for before any entry is read, in its order.
#![tactic(auto)]

ghost use Rattle.std.specs.Prelude.{◌≡◌};
ghost use Rattle.stored_slot.specs.Faults.{room_fault, roms_fault};

use picks::chips_fit;
use refusal::Refusal;
use rom_words::words_before;
use slot::description::ChipSetType;
use stored_slot::lines::pick_fault;
use stored_slot::roms::first_fault;
use stored_slot::stored::StoredSlot;
use stored_slot::window::{layout_fault, word_bytes};

// What the lent buffers are refused for: the output has w bytes a word, the marks one.
fn room_fault(s: StoredSlot, output: usize, marks: usize) -> Option<Refusal>
    ensures { result ≡ room_fault s output marks }
{
    let words = words_before(s, s.num_roms);
    let short = ((output as u64) < words * word_bytes(s) as u64) | ((marks as u64) < words);
    short.then_some(Refusal::ShortBuffer)
}

// The first refusal, for a table, an output and marks of so many bytes.
pub fn roms_fault(
    s: StoredSlot,
    set_type: ChipSetType,
    stored: &[u8],
    output: usize,
    marks: usize,
) -> Option<Refusal>
    ensures { result ≡ roms_fault s set_type stored.now output marks }
{
    let layout = layout_fault(s, stored);
    let roms = first_fault(s);
    let count = (!chips_fit(set_type, s.num_roms)).then_some(Refusal::BadLayout);
    let picks = pick_fault(s, set_type);
    let room = room_fault(s, output, marks);
    layout.or(roms.or(count.or(picks.or(room))))
}
