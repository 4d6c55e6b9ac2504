// Kind 5: the address search, by the call that a bench makes. The case has the bytes of the description record.
use crate::layouts::put_addr_layout;
use case_numbers::answer::returned;
use case_numbers::case::{has_bytes, record_bytes};
use onerom::onerom_derive_addr_layout;

pub(crate) fn answer(case: &[u64], ours: &mut [u64]) -> usize {
    if !has_bytes(case, 425) {
        return 0;
    }
    let description = record_bytes(case, 1);
    let mut layout = [0u8; 36];
    let result = onerom_derive_addr_layout(&description, &mut layout);
    let begun = returned(case, ours, result);
    if result == 0 {
        return put_addr_layout(ours, begun, layout);
    }
    begun
}
