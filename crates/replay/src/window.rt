// Kind 1: whether a run of GPIOs lies in one window.
use case_numbers::answer::{bit, put, success};
use case_numbers::case::{byte_at, has_bytes};
use gpio::window::Window;

pub(crate) fn answer(case: &[u64], ours: &mut [u64]) -> usize {
    if !has_bytes(case, 3) {
        return 0;
    }
    let fits = Window::fits(byte_at(case, 1), byte_at(case, 2));
    let n = success(case, ours);
    put(ours, n, bit(fits))
}
