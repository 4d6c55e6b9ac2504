// The verdicts, counted by kind and written. Place k of `cases` counts the cases of kind k, place 0 the lines unread;
// place k of `differ` the cases of kind k whose answer differs, place 0 all of them.
use crate::verdict::Verdict;
use case_numbers::case::number_at;
use say::{say, say_number};
use std::io;
use std::num::wrapping_add_u64;

const LAST_KIND: usize = 7;

// Differences whose line is named.
const SHOWN: u64 = 5;

fn count(counts: &mut [u64], kind: usize) {
    if kind < counts.len() {
        counts[kind] = wrapping_add_u64(counts[kind], 1);
    }
}

fn name(rt: &impl Print, place: u64) -> io::Result<()> {
    say(rt, b"line ")?;
    say_number(rt, place)?;
    say(rt, b" differs\n")
}

pub(crate) fn add(
    rt: &impl Print,
    verdict: Verdict,
    place: u64,
    cases: &mut [u64],
    differ: &mut [u64],
) -> io::Result<()> {
    match verdict {
        Verdict::Same(kind) => count(cases, kind as usize),
        Verdict::Differs(kind) => {
            count(cases, kind as usize);
            count(differ, kind as usize);
            count(differ, 0);
            if number_at(differ, 0) <= SHOWN {
                return name(rt, place);
            }
        }
        Verdict::Unread => count(cases, 0),
    }
    Ok(())
}

fn report_kind(rt: &impl Print, cases: &[u64], differ: &[u64], kind: usize) -> io::Result<()> {
    say(rt, b"kind ")?;
    say_number(rt, kind as u64)?;
    say(rt, b": ")?;
    say_number(rt, number_at(cases, kind))?;
    say(rt, b" cases, ")?;
    say_number(rt, number_at(differ, kind))?;
    say(rt, b" differ\n")
}

pub(crate) fn report(rt: &impl Print, cases: &[u64], differ: &[u64]) -> io::Result<()> {
    for kind in 1..=LAST_KIND {
        report_kind(rt, cases, differ, kind)?;
    }
    say(rt, b"unread: ")?;
    say_number(rt, number_at(cases, 0))?;
    say(rt, b"\n")
}
