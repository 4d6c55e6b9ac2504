// A line of the list, judged: its case is run by its kind, and our answer compared with the one beside it.
use crate::line::Line;
use crate::{address, build, multi, offset, preference, select, window};
use case_numbers::answer;
use case_numbers::case::number_at;

// The kind goes with the verdict. A line that holds no case of a known kind is unread.
#[derive(Clone, Copy)]
pub enum Verdict {
    Same(u64),
    Differs(u64),
    Unread,
}

// Writes our answer to a case and answers how many numbers it has; 0 if it is no case.
fn answered(case: &[u64], ours: &mut [u64]) -> usize {
    match number_at(case, 0) {
        1 => window::answer(case, ours),
        2 => offset::answer(case, ours),
        3 => preference::answer(case, ours),
        4 => multi::answer(case, ours),
        5 => address::answer(case, ours),
        6 => select::answer(case, ours),
        7 => build::answer(case, ours),
        _ => 0,
    }
}

fn compared(case: &[u64], theirs: &[u64]) -> Verdict {
    let kind = number_at(case, 0);
    let mut ours = [0u64; 128];
    let n = answered(case, &mut ours);
    if n == 0 {
        return Verdict::Unread;
    }
    if answer::same(theirs, &ours, n) {
        return Verdict::Same(kind);
    }
    Verdict::Differs(kind)
}

pub(crate) fn of(line: Line, numbers: &[u64]) -> Verdict {
    let split = line.case;
    let end = line.count;
    if line.spoiled | !line.parted {
        return Verdict::Unread;
    }
    if end < split {
        return Verdict::Unread;
    }
    if numbers.len() < end {
        return Verdict::Unread;
    }
    compared(&numbers[0..split], &numbers[split..end])
}
