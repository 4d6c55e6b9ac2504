// The pin page: a row for each GPIO, with the role that both layouts give it.
#![tactic(auto)]

mod roles; // the role of each GPIO

ghost use Rattle.std.specs.Prelude.{◌≡◌};
ghost use Rattle.hex_write.specs.Write.{wrote_as};
ghost use Rattle.pin_page.specs.Page.{layouts_in, page_of};

use crate::roles::page_roles;
use addr_layout::layout::{AddrLayout, layout_in};
use build_args::in_domain::cs_data_in;
use cs_data_layout::layout::CsDataLayout;
use page_rows::put_rows;
use refusal::Refusal;

// Bytes of a page.
pub const SIZE: usize = 432;

// Whether both layouts keep to the domain.
fn layouts_in(addr: AddrLayout, cs_data: CsDataLayout) -> bool
    ensures { result ≡ layouts_in addr cs_data }
{
    layout_in(addr) & cs_data_in(cs_data)
}

// Writes the page of both layouts, and says how long it is.
pub fn write_page(
    addr: AddrLayout,
    cs_data: CsDataLayout,
    page: &mut [u8],
) -> Result<usize, Refusal>
    ensures { wrote_as result page.new ≡ page_of addr cs_data page.old }
{
    if !layouts_in(addr, cs_data) {
        return Err(Refusal::OutOfDomain);
    }
    if page.len() < SIZE {
        return Err(Refusal::ShortBuffer);
    }
    let roles = page_roles(addr, cs_data);
    put_rows(page, &roles);
    Ok(SIZE)
}
