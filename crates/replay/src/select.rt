// Kind 6: the select search, by the call that a bench makes. The case has whether an address layout is given, the bytes of the
// description record, and the address layout.
ghost use Rattle.std.specs.Prelude.{◌≤◌};

use crate::layouts::{addr_bytes, put_select_layout};
use case_numbers::answer::returned;
use case_numbers::case::{byte_at, has_bytes, record_bytes};
use onerom::onerom_derive_cs_data_layout;

// The bytes that give an address layout: none where none is given.
fn given_bytes(given: u8) -> usize
    ensures { result ≤ 36 }
{
    if given == 1 { 36 } else { 0 }
}

fn searched(case: &[u64], layout: &mut [u8]) -> u64 {
    let description = record_bytes(case, 2);
    let given = addr_bytes(case, 426);
    let n = given_bytes(byte_at(case, 1));
    onerom_derive_cs_data_layout(&description, &given[0..n], layout)
}

pub(crate) fn answer(case: &[u64], ours: &mut [u64]) -> usize {
    if !has_bytes(case, 456) | (1 < byte_at(case, 1)) {
        return 0;
    }
    let mut layout = [0u8; 100];
    let result = searched(case, &mut layout);
    let begun = returned(case, ours, result);
    if result == 0 {
        return put_select_layout(ours, begun, layout);
    }
    begun
}
