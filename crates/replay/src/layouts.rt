// The layouts of a case, and of an answer: the numbers of their records in another order, without the places that are kept. Both records
// have functions of their own: one over a closure that places a number would owe each caller the bound on what it answers.
ghost use Rattle.std.specs.Prelude.{◌<◌, ◌≤◌};

use case_numbers::answer::put;
use case_numbers::case::byte_at;

// The record's place of an address layout's number j.
fn addr_place(j: usize) -> usize
    requires { j < 30 }
    ensures { result < 36 }
{
    if j < 6 {
        return j;
    }
    j + 2
}

// The record's place of a select layout's number j: the counts of lines stand before the qualifiers there.
fn select_place(j: usize) -> usize
    requires { j < 100 }
    ensures { result < 100 }
{
    if j < 6 {
        return j;
    }
    if j < 10 {
        return j + 2;
    }
    if j < 12 {
        return j - 4;
    }
    j
}

// The bytes of the address layout whose first number stands at a place of the case.
pub(crate) fn addr_bytes(case: &[u64], at: usize) -> [u8; 36]
    requires { at ≤ 1000 }
{
    let mut out = [0u8; 36];
    for j in 0..30 {
        out[addr_place(j)] = byte_at(case, at + j);
    }
    out
}

// The bytes of the select layout whose first number stands at a place of the case.
pub(crate) fn select_bytes(case: &[u64], at: usize) -> [u8; 100]
    requires { at ≤ 1000 }
{
    let mut out = [0u8; 100];
    for j in 0..100 {
        out[select_place(j)] = byte_at(case, at + j);
    }
    out
}

pub(crate) fn put_addr_layout(ours: &mut [u64], at: usize, layout: [u8; 36]) -> usize {
    let mut end = at;
    for j in 0..30 {
        end = put(ours, end, layout[addr_place(j)] as u64);
    }
    end
}

pub(crate) fn put_select_layout(ours: &mut [u64], at: usize, layout: [u8; 100]) -> usize {
    let mut end = at;
    for j in 0..100 {
        end = put(ours, end, layout[select_place(j)] as u64);
    }
    end
}
