// Kind 2: the offset of a chip's pins in the socket.
use case_numbers::answer::{put, refused, success};
use case_numbers::case::{byte_at, has_bytes};
use slot::slot_context::{raised, socket_pin_offset};

// An offset below 0 is written as a byte, 252 to 255.
fn as_byte(offset: i8) -> u64 {
    (raised(offset) as u64 + 252) % 256
}

pub(crate) fn answer(case: &[u64], ours: &mut [u64]) -> usize {
    if !has_bytes(case, 3) {
        return 0;
    }
    let told = socket_pin_offset(byte_at(case, 1), byte_at(case, 2));
    match told {
        Ok(by) => {
            let n = success(case, ours);
            put(ours, n, as_byte(by))
        }
        Err(why) => refused(case, ours, why),
    }
}
