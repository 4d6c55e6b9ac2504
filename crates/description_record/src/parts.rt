// The parts of a description at their places in a record, which is known to have all of them.
ghost use Rattle.std.specs.Prelude.{◌≡◌, ◌+◌, ◌≤◌, length};
ghost use Rattle.description_record.specs.Record.{record_size, package_of, set_type_of, offset_of, logic_from, setting_of, cs_config_at, multi_at, socket_at, board_at, control_line_at, control_lines_at, control_at, chip_at, chips_at, described};

use crate::shape::SIZE;
use fields::whole;
use fields::whole::{entry, pair_at};
use gpio::candidates::{Candidates, Pin};
use slot::description::{
    Board, Chip, ChipSetType, ControlLine, ControlLines, CsConfig, CsLogic, Description,
    MultiCsConfig, Package,
};

fn package_of(x: u8) -> Package
    ensures { result ≡ package_of x }
{
    if x == 0 {
        return Package::B;
    }
    Package::A
}

fn set_type(x: u8) -> ChipSetType
    ensures { result ≡ set_type_of x }
{
    if x == 0 {
        return ChipSetType::Single;
    }
    if x == 1 {
        return ChipSetType::Banked;
    }
    ChipSetType::Multi
}

fn pin_offset(x: u8) -> i8
    ensures { result ≡ offset_of x }
{
    if x <= 4 {
        return x as i8;
    }
    if 252 <= x {
        return -1 - ((255 - x) as i8);
    }
    0
}

fn logic(x: u8) -> CsLogic
    ensures { result ≡ logic_from x }
{
    if x == 0 {
        return CsLogic::ActiveLow;
    }
    if x == 1 {
        return CsLogic::ActiveHigh;
    }
    CsLogic::Ignore
}

fn setting(x: u8) -> Option<CsLogic>
    ensures { result ≡ setting_of x }
{
    if x == 255 {
        return None;
    }
    Some(logic(x))
}

fn cs_config(b: &[u8; SIZE]) -> CsConfig
    ensures { result ≡ cs_config_at b.now }
{
    let form = entry(b, 16);
    if form == 0 {
        return CsConfig::ChipSelect {
            cs1: logic(entry(b, 19)),
            cs2: setting(entry(b, 20)),
            cs3: setting(entry(b, 21)),
            cs4: setting(entry(b, 22)),
        };
    }
    if form == 1 {
        return CsConfig::CeOe;
    }
    CsConfig::CeOeExplicit {
        ce: logic(entry(b, 17)),
        oe: logic(entry(b, 18)),
    }
}

fn multi(b: &[u8; SIZE]) -> MultiCsConfig
    ensures { result ≡ multi_at b.now }
{
    MultiCsConfig {
        select: entry(b, 23),
        commoned: whole::bytes_at(b, 28),
        num_commoned: entry(b, 24),
        ignored: whole::bytes_at(b, 36),
        num_ignored: entry(b, 25),
    }
}

fn socket(b: &[u8; SIZE]) -> [Pin; 40]
    ensures { result ≡ socket_at b.now }
{
    let absent = Candidates::Absent;
    let pin = Pin { gpios: absent };
    let mut out = [pin; 40];
    for k in 0..40 {
        out[k] = Pin {
            gpios: pair_at(b, 52 + 2 * k),
        };
    }
    out
}

fn board(b: &[u8; SIZE]) -> Board
    ensures { result ≡ board_at b.now }
{
    Board {
        socket: socket(b),
        pins: entry(b, 0),
        x1: pair_at(b, 132),
        x2: pair_at(b, 134),
    }
}

fn line(b: &[u8], p: usize) -> ControlLine
    requires { p + 3 ≤ length b.now }
    ensures { result ≡ control_line_at b.now p }
{
    ControlLine {
        kind: entry(b, p),
        pin: entry(b, p + 1),
    }
}

fn lines(b: &[u8], p: usize) -> [ControlLine; 8]
    requires { p + 72 ≤ length b.now }
    ensures { result ≡ control_lines_at b.now p }
{
    let mut out = [ControlLine { kind: 0, pin: 0 }; 8];
    for k in 0..8 {
        out[k] = line(b, p + 48 + 3 * k);
    }
    out
}

fn control_lines(b: &[u8], p: usize) -> ControlLines
    requires { p + 72 ≤ length b.now }
    ensures { result ≡ control_at b.now p }
{
    ControlLines {
        lines: lines(b, p),
        count: entry(b, p + 6),
    }
}

fn chip(b: &[u8], p: usize) -> Chip
    requires { p + 72 ≤ length b.now }
    ensures { result ≡ chip_at b.now p }
{
    Chip {
        address_pins: whole::bytes_at(b, p + 8),
        num_address_pins: entry(b, p + 4),
        data_pins: whole::bytes_at(b, p + 32),
        num_data_pins: entry(b, p + 5),
        control: control_lines(b, p),
        size: whole::four_at(b, p),
    }
}

// Chips 0 to 3, 72 bytes a chip.
fn chips(b: &[u8; SIZE]) -> [Chip; 4]
    ensures { result ≡ chips_at b.now }
{
    [chip(b, 136), chip(b, 208), chip(b, 280), chip(b, 352)]
}

// What the record describes.
pub fn description(b: &[u8; SIZE]) -> Description
    ensures { result ≡ described b.now }
{
    Description {
        board: board(b),
        package: package_of(entry(b, 1)),
        set_type: set_type(entry(b, 2)),
        word_bytes: entry(b, 3),
        pin_offset: pin_offset(entry(b, 4)),
        max_image_size: whole::four_at(b, 8),
        chips: chips(b),
        num_chips: entry(b, 5),
        cs_config: cs_config(b),
        has_multi: entry(b, 7) == 1,
        multi: multi(b),
        qualifiers: whole::bytes_at(b, 44),
        num_qualifiers: entry(b, 6),
    }
}
