// What a build is asked for: the slot, its layouts, the chips' bytes and the lent table; and which of it is in the domain.
#![tactic(auto)]

pub mod images; // the bytes that are lent for the chips
pub mod positions; // where the data lines are counted from
pub mod lines; // the lines that pick a chip
pub mod in_domain; // number 1

use addr_layout::layout::AddrLayout;
use cs_data_layout::layout::CsDataLayout;
use images::ImageSpan;
use slot::description::Description;

// What a build is asked for, the chips' bytes aside.
#[derive(Clone, Copy)]
pub struct BuildArgs {
    pub description: Description,
    pub addr: AddrLayout,
    pub cs_data: CsDataLayout,
    // Where each chip's bytes stand in the lent ones.
    pub spans: [ImageSpan; 4],
}
