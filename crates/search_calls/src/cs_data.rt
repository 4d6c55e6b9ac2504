// The select search's answer, handed over to a caller that has no structs.
ghost use Rattle.std.specs.Prelude.{◌≡◌};
ghost use Rattle.cs_data_record.specs.CsDataRecord.{cs_data_size, cs_data_bytes};
ghost use Rattle.calls.specs.Calls.{returned, search_result, written, cs_data_found};

use calls::refused::packed;
use cs_data_layout::layout::CsDataLayout;
use refusal::Refusal;

// Writes the layout's record, if the buffer holds one.
fn write(l: CsDataLayout, buffer: &mut [u8]) -> u64
    ensures { returned result buffer.new ≡ search_result (written cs_data_size (cs_data_bytes l) buffer.old) }
{
    if buffer.len() < cs_data_record::SIZE {
        return packed(Refusal::ShortBuffer);
    }
    cs_data_record::store(l, buffer);
    0
}

// Answers as the search did.
pub fn hand_over(found: Result<CsDataLayout, Refusal>, buffer: &mut [u8]) -> u64
    ensures { returned result buffer.new ≡ search_result (cs_data_found found buffer.old) }
{
    match found {
        Ok(layout) => write(layout, buffer),
        Err(why) => packed(why),
    }
}
