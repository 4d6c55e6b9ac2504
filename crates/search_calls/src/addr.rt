// The address search's answer, handed over to a caller that has no structs.
ghost use Rattle.std.specs.Prelude.{◌≡◌};
ghost use Rattle.addr_record.specs.AddrRecord.{addr_size, layout_bytes};
ghost use Rattle.calls.specs.Calls.{returned, search_result, written, addr_found};

use addr_layout::layout::AddrLayout;
use calls::refused::packed;
use refusal::Refusal;

// Writes the layout's record, if the buffer holds one.
fn write(l: AddrLayout, buffer: &mut [u8]) -> u64
    ensures { returned result buffer.new ≡ search_result (written addr_size (layout_bytes l) buffer.old) }
{
    if buffer.len() < addr_record::SIZE {
        return packed(Refusal::ShortBuffer);
    }
    addr_record::store(l, buffer);
    0
}

// Answers as the search did.
pub fn hand_over(found: Result<AddrLayout, Refusal>, buffer: &mut [u8]) -> u64
    ensures { returned result buffer.new ≡ search_result (addr_found found buffer.old) }
{
    match found {
        Ok(layout) => write(layout, buffer),
        Err(why) => packed(why),
    }
}
