// Kind 4: the select configuration of a Multi set. The case has kinds and no pins, so every line has pin 1: the call
// asks of a pin only that it is 1 to 40.
ghost use Rattle.std.specs.Prelude.{◌≤◌};

use case_numbers::answer::{put, put_bytes, refused, success};
use case_numbers::case::{byte_at, has_bytes};
use multi_select::derive_multi_cs_config;
use slot::description::{ControlLine, ControlLines, CsConfig, CsLogic, MultiCsConfig};

fn line(case: &[u64], at: usize) -> ControlLine {
    ControlLine {
        kind: byte_at(case, at),
        pin: 1,
    }
}

fn control_lines(case: &[u64]) -> ControlLines {
    ControlLines {
        lines: [
            line(case, 2),
            line(case, 3),
            line(case, 4),
            line(case, 5),
            line(case, 6),
            line(case, 7),
            line(case, 8),
            line(case, 9),
        ],
        count: byte_at(case, 1),
    }
}

fn logic(x: u8) -> CsLogic {
    match x {
        0 => CsLogic::ActiveLow,
        1 => CsLogic::ActiveHigh,
        _ => CsLogic::Ignore,
    }
}

fn setting(x: u8) -> Option<CsLogic> {
    if x == 255 {
        return None;
    }
    Some(logic(x))
}

// The settings of a block: form, ce, oe, cs1 to cs4.
fn settings(case: &[u64], at: usize) -> CsConfig
    requires { at ≤ 17 }
{
    match byte_at(case, at) {
        0 => CsConfig::ChipSelect {
            cs1: logic(byte_at(case, at + 3)),
            cs2: setting(byte_at(case, at + 4)),
            cs3: setting(byte_at(case, at + 5)),
            cs4: setting(byte_at(case, at + 6)),
        },
        1 => CsConfig::CeOe,
        _ => CsConfig::CeOeExplicit {
            ce: logic(byte_at(case, at + 1)),
            oe: logic(byte_at(case, at + 2)),
        },
    }
}

// A setting is 0 to 2, or 255 where it is not given.
fn setting_in(x: u8) -> bool {
    (x <= 2) | (x == 255)
}

// Whether a block codes settings. Of another there is nothing to ask.
fn settings_in(case: &[u64], at: usize) -> bool
    requires { at ≤ 17 }
{
    let form = byte_at(case, at);
    let ce = byte_at(case, at + 1);
    let oe = byte_at(case, at + 2);
    let cs1 = byte_at(case, at + 3);
    let cs2 = byte_at(case, at + 4);
    let cs3 = byte_at(case, at + 5);
    let cs4 = byte_at(case, at + 6);
    let no_enables = (ce == 255) & (oe == 255);
    let no_selects = (cs1 == 255) & (cs2 == 255) & (cs3 == 255) & (cs4 == 255);
    let others = setting_in(cs2) & setting_in(cs3) & setting_in(cs4);
    ((form == 0) & no_enables & (cs1 <= 2) & others)
        | ((form == 1) & no_enables & no_selects)
        | ((form == 2) & (ce <= 2) & (oe <= 2) & no_selects)
}

fn put_kinds(ours: &mut [u64], at: usize, kinds: [u8; 8]) -> usize {
    put_bytes(ours, at, &kinds)
}

fn put_config(case: &[u64], ours: &mut [u64], config: MultiCsConfig) -> usize {
    let commoned = config.commoned;
    let ignored = config.ignored;
    let begun = success(case, ours);
    let select = put(ours, begun, config.select as u64);
    let num_commoned = put(ours, select, config.num_commoned as u64);
    let counted = put(ours, num_commoned, config.num_ignored as u64);
    let listed = put_kinds(ours, counted, commoned);
    put_kinds(ours, listed, ignored)
}

pub(crate) fn answer(case: &[u64], ours: &mut [u64]) -> usize {
    if !has_bytes(case, 24) | (8 < byte_at(case, 1)) {
        return 0;
    }
    if !settings_in(case, 10) | !settings_in(case, 17) {
        return 0;
    }
    match derive_multi_cs_config(control_lines(case), settings(case, 10), settings(case, 17)) {
        Ok(config) => put_config(case, ours, config),
        Err(why) => refused(case, ours, why),
    }
}
