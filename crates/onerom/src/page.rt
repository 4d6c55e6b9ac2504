// The pin page, for a caller that has no structs.
ghost use Rattle.std.specs.Prelude.{◌≡◌, ◌≤◌, length};
ghost use Rattle.addr_record.specs.AddrRecord.{addr_size};
ghost use Rattle.calls.specs.Calls.{returned};
ghost use Rattle.calls.specs.Hex.{hex_write_result};
ghost use Rattle.calls.specs.Page.{layouts_formed, page_from};

use calls::refused::write_result;
use pin_page::write_page;

// Whether the bytes are records of both layouts.
pub fn formed(addr_layout: &[u8], cs_data_layout: &[u8]) -> bool
    ensures { result ≡ layouts_formed addr_layout.now cs_data_layout.now }
{
    addr_record::formed(addr_layout) & cs_data_record::formed(cs_data_layout)
}

// Writes the page of the layouts that the records give, and answers as the write did.
pub fn hand_over(addr_layout: &[u8], cs_data_layout: &[u8], page: &mut [u8]) -> u64
    requires { addr_size ≤ length addr_layout.now }
    ensures { returned result page.new
        ≡ hex_write_result (page_from addr_layout.now cs_data_layout.now page.old) }
{
    let addr = addr_record::layout_at(addr_layout);
    let cs_data = cs_data_record::layout_at(cs_data_layout);
    write_result(write_page(addr, cs_data, page))
}
