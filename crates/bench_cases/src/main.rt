// Document 01's bench cases for the leaf modules, with some of its sentences besides: each is run and its answer written.
#![tactic(auto)]

use control::alg_preference::cs_alg_preference;
use control::cs_config::control_line_logic;
use gpio::window::Window;
use multi_select::derive_multi_cs_config;
use refusal::Refusal;
use say::{say, say_number, say_refusal};
use slot::description::{ControlLine, ControlLines, CsConfig, CsLogic, MultiCsConfig};
use slot::slot_context::{raised, socket_pin_offset};
use std::io;

fn window(rt: &impl Print, base: u8, span: u8) -> io::Result<()> {
    say(rt, b"window ")?;
    say_number(rt, base as u64)?;
    say(rt, b"/")?;
    say_number(rt, span as u64)?;
    if Window::fits(base, span) {
        say(rt, b": fits\n")
    } else {
        say(rt, b": does not fit\n")
    }
}

// An offset is written as four more than it is, so that it is at least 0.
fn offset(rt: &impl Print, chip_pins: u8, board_pins: u8) -> io::Result<()> {
    say(rt, b"pins ")?;
    say_number(rt, chip_pins as u64)?;
    say(rt, b" in ")?;
    say_number(rt, board_pins as u64)?;
    say(rt, b": ")?;
    match socket_pin_offset(chip_pins, board_pins) {
        Ok(by) => {
            say(rt, b"4 + offset = ")?;
            say_number(rt, raised(by) as u64)?;
            say(rt, b"\n")
        }
        Err(r) => say_refusal(rt, r),
    }
}

fn preference(rt: &impl Print, qualifiers: bool, ignore_index: bool) -> io::Result<()> {
    say(rt, b"preference ")?;
    say_number(rt, cs_alg_preference(qualifiers, ignore_index) as u64)?;
    say(rt, b"\n")
}

// How the six named lines are read under a chip's settings.
fn settings(rt: &impl Print, config: CsConfig) -> io::Result<()> {
    say(rt, b"ce oe cs1 cs2 cs3 cs4:")?;
    for kind in 0u8..6 {
        say_logic(rt, control_line_logic(kind, config))?;
    }
    say(rt, b"\n")
}

fn line(kind: u8, pin: u8) -> ControlLine {
    ControlLine { kind, pin }
}

fn first(kinds: [u8; 8]) -> u8 {
    kinds[0]
}

fn say_logic(rt: &impl Print, logic: CsLogic) -> io::Result<()> {
    match logic {
        CsLogic::ActiveLow => say(rt, b" low"),
        CsLogic::ActiveHigh => say(rt, b" high"),
        CsLogic::Ignore => say(rt, b" ignored"),
    }
}

fn say_multi(rt: &impl Print, derived: Result<MultiCsConfig, Refusal>) -> io::Result<()> {
    match derived {
        Ok(config) => {
            let commoned = config.commoned;
            let ignored = config.ignored;
            say(rt, b"multi: select ")?;
            say_number(rt, config.select as u64)?;
            say(rt, b", commoned ")?;
            say_number(rt, config.num_commoned as u64)?;
            say(rt, b" from ")?;
            say_number(rt, first(commoned) as u64)?;
            say(rt, b", ignored ")?;
            say_number(rt, config.num_ignored as u64)?;
            say(rt, b" from ")?;
            say_number(rt, first(ignored) as u64)?;
            say(rt, b"\n")
        }
        Err(r) => {
            say(rt, b"multi: ")?;
            say_refusal(rt, r)
        }
    }
}

// A chip with ce and oe, and one with cs1 to cs3 and a line of no name.
fn multi(rt: &impl Print) -> io::Result<()> {
    let ce = CsConfig::CeOeExplicit {
        ce: CsLogic::ActiveLow,
        oe: CsLogic::Ignore,
    };
    let none = CsConfig::CeOeExplicit {
        ce: CsLogic::Ignore,
        oe: CsLogic::Ignore,
    };
    let unused = line(6, 1);
    let two = ControlLines {
        lines: [
            line(0, 20),
            line(1, 22),
            unused,
            unused,
            unused,
            unused,
            unused,
            unused,
        ],
        count: 2,
    };
    say_multi(rt, derive_multi_cs_config(two, CsConfig::CeOe, ce))?;
    say_multi(rt, derive_multi_cs_config(two, none, ce))?;
    say_multi(rt, derive_multi_cs_config(two, ce, none))?;
    let one = ControlLines {
        lines: [
            unused,
            line(2, 20),
            unused,
            unused,
            unused,
            unused,
            unused,
            unused,
        ],
        count: 3,
    };
    say_multi(rt, derive_multi_cs_config(one, none, none))?;
    let twice = ControlLines {
        lines: [
            line(2, 20),
            line(2, 21),
            unused,
            unused,
            unused,
            unused,
            unused,
            unused,
        ],
        count: 2,
    };
    say_multi(rt, derive_multi_cs_config(twice, ce, ce))
}

fn main(rt: HostRuntime) -> io::Result<()> {
    window(&rt, 0, 32)?;
    window(&rt, 1, 32)?;
    window(&rt, 16, 32)?;
    window(&rt, 41, 8)?;
    window(&rt, 40, 8)?;
    window(&rt, 255, 255)?;
    offset(&rt, 24, 32)?;
    offset(&rt, 32, 24)?;
    offset(&rt, 40, 32)?;
    offset(&rt, 255, 40)?;
    offset(&rt, 24, 25)?;
    preference(&rt, true, true)?;
    preference(&rt, true, false)?;
    preference(&rt, false, true)?;
    preference(&rt, false, false)?;
    settings(&rt, CsConfig::CeOe)?;
    settings(
        &rt,
        CsConfig::CeOeExplicit {
            ce: CsLogic::Ignore,
            oe: CsLogic::ActiveHigh,
        },
    )?;
    settings(
        &rt,
        CsConfig::CeOeExplicit {
            ce: CsLogic::ActiveHigh,
            oe: CsLogic::Ignore,
        },
    )?;
    settings(
        &rt,
        CsConfig::ChipSelect {
            cs1: CsLogic::Ignore,
            cs2: None,
            cs3: Some(CsLogic::Ignore),
            cs4: Some(CsLogic::ActiveHigh),
        },
    )?;
    multi(&rt)
}
