// The wiring's test, for a caller that has no structs.
ghost use Rattle.std.specs.Prelude.{◌≡◌, ◌≤◌, length};
ghost use Rattle.addr_record.specs.AddrRecord.{addr_size};
ghost use Rattle.onerom.specs.Wired.{wired_from};

use addr_record::layout_at;
use calls::refused::packed;
use domain::description::package_in;
use refusal::Refusal;
use slot::description::Description;
use wired::well_wired;

// Tests a slot with the layout that the record gives. Of the description's domain only the package is looked at.
pub fn tested(d: Description, addr_layout: &[u8]) -> u64
    requires { addr_size ≤ length addr_layout.now }
    ensures { result ≡ wired_from d addr_layout.now }
{
    let package = d.package;
    let board = d.board;
    if !package_in(package, board) {
        return packed(Refusal::OutOfDomain);
    }
    if well_wired(d, layout_at(addr_layout)) {
        0
    } else {
        1
    }
}
