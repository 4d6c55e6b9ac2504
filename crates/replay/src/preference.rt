// Kind 3: the preference of a select algorithm.
use case_numbers::answer::{put, success};
use case_numbers::case::{has_bytes, number_at};
use control::alg_preference::cs_alg_preference;

pub(crate) fn answer(case: &[u64], ours: &mut [u64]) -> usize {
    let qualifiers = number_at(case, 1);
    let ignore_index = number_at(case, 2);
    if !has_bytes(case, 3) | (1 < qualifiers) | (1 < ignore_index) {
        return 0;
    }
    let preference = cs_alg_preference(qualifiers == 1, ignore_index == 1);
    let n = success(case, ours);
    put(ours, n, preference as u64)
}
