// The oracle's fixed list, replayed: each case on standard input is run through this repository's functions, and every
// number of their answer is held against the answer that stands beside the case. docs/CASES.md has the language.
#![tactic(auto)]

mod line; // a line of the list, from bytes to numbers
mod verdict; // a line judged, by its kind
mod tally; // the verdicts, counted and written
mod window; // kind 1
mod offset; // kind 2
mod preference; // kind 3
mod multi; // kind 4
mod address; // kind 5
mod select; // kind 6
mod build; // kind 7
mod images; // its images, and the checksum of its table
mod layouts; // the numbers of both layouts

use crate::line::Line;
use say::say;
use std::io;
use std::io::Read;

// What a read leaves: the line that has not ended yet, and whether more may come.
#[derive(Clone, Copy)]
struct Step {
    line: Line,
    more: bool,
}

// A line has ended: its verdict is counted, and the next line begins.
fn ended(
    rt: &impl Print,
    line: Line,
    numbers: &mut [u64],
    cases: &mut [u64],
    differ: &mut [u64],
) -> io::Result<Line> {
    let whole = line.closed(numbers);
    let verdict = verdict::of(whole, numbers);
    tally::add(rt, verdict, whole.place, cases, differ)?;
    Ok(whole.next())
}

// The end of the list. A last line without a line end counts too.
fn finish(
    rt: &impl Print,
    line: Line,
    numbers: &mut [u64],
    cases: &mut [u64],
    differ: &mut [u64],
) -> io::Result<()> {
    if line.begun() {
        ended(rt, line, numbers, cases, differ)?;
    }
    Ok(())
}

// One byte of the list.
fn byte(
    rt: &impl Print,
    line: Line,
    b: u8,
    numbers: &mut [u64],
    cases: &mut [u64],
    differ: &mut [u64],
) -> io::Result<Line> {
    if b == b'\n' {
        return ended(rt, line, numbers, cases, differ);
    }
    Ok(line.taken(b, numbers))
}

// The bytes of one read.
fn bytes(
    rt: &impl Print,
    line: Line,
    some: &[u8],
    numbers: &mut [u64],
    cases: &mut [u64],
    differ: &mut [u64],
) -> io::Result<Line> {
    let mut l = line;
    for b in some {
        l = byte(rt, l, *b, numbers, cases, differ)?;
    }
    Ok(l)
}

// Where a read fails the list ends.
fn read_some(
    rt: &(impl Input + Print),
    line: Line,
    numbers: &mut [u64],
    cases: &mut [u64],
    differ: &mut [u64],
) -> io::Result<Step> {
    let mut buf = [0u8; 65536];
    let mut n = 0;
    match rt.reader().read(&mut buf) {
        Ok(got) => n = got,
        Err(_) => say(rt, b"the list cannot be read\n")?,
    }
    let line = bytes(rt, line, &buf[..n], numbers, cases, differ)?;
    Ok(Step { line, more: 0 < n })
}

// Reads to the end. A proved loop has to end, and nothing says that the input does: so it has as many turns as no run uses up.
fn replay(
    rt: &(impl Input + Print),
    numbers: &mut [u64],
    cases: &mut [u64],
    differ: &mut [u64],
) -> io::Result<()> {
    let mut line = Line::first();
    for _ in 0..u64::MAX {
        let step = read_some(rt, line, numbers, cases, differ)?;
        line = step.line;
        if !step.more {
            break;
        }
    }
    finish(rt, line, numbers, cases, differ)
}

fn main(rt: HostRuntime) -> io::Result<()> {
    let mut numbers = [0u64; 1024];
    let mut cases = [0u64; 10];
    let mut differ = [0u64; 10];
    replay(&rt, &mut numbers, &mut cases, &mut differ)?;
    tally::report(&rt, &cases, &differ)
}
