// Slots through both searches, the build and read-back: that well wired slots which nothing refuses are there, of each set kind and
// number of chips, in 8 and in 16-bit mode. That each is well wired is tested by `well_wired`, and that the buffers have room by
// `has_room`: their laws give the premises of demand 3.
// Each pin has one GPIO and no GPIO two pins; what stands past a board's pins shares the GPIO of one of them. The lent buffers hold
// JUNK before.
#![tactic(auto)]

ghost use Rattle.std.specs.Prelude.{◌≤◌};

use addr_layout::derive_addr_layout;
use addr_layout::layout::no_layout;
use build_args::images::ImageSpan;
use four_calls::round_trip;
use gpio::candidates::{Candidates, Pin};
use lists::array::entry;
use refusal::Refusal;
use room::has_room;
use say::{say, say_number};
use slot::description::{
    Board, Chip, ChipSetType, ControlLine, ControlLines, CsConfig, CsLogic, Description,
    MultiCsConfig, Package,
};
use std::io;
use std::num::wrapping_add_u8;
use wired::well_wired;
use words::ByteOrder;

const JUNK: u8 = 195;

// A slot whose chips have `lines` address lines, an even number, of which the first 8 are in use; chip 0 of `size` bytes.
#[derive(Clone, Copy)]
struct Case {
    set_type: ChipSetType,
    chips: u8,
    word_bytes: u8,
    lines: u8,
    size: u16,
    limit: u32,
    pins: u8,
}

// The GPIO at place k of the socket, data lines first and those of each byte reversed. The address lines are turned round in pairs; the
// select is next to them. Past the board's pins stands the GPIO of an address line.
fn wired(lines: u8, pins: u8, k: u8) -> Candidates {
    if pins <= k {
        return Candidates::One(0);
    }
    if k < 16 {
        return Candidates::One(k ^ 23);
    }
    if k == 19 {
        return Candidates::One(lines);
    }
    if k < 20 {
        return Candidates::Absent;
    }
    if k - 20 < lines {
        return Candidates::One((k - 20) ^ 1);
    }
    Candidates::Absent
}

fn socket(lines: u8, pins: u8) -> [Pin; 40] {
    let none = Pin {
        gpios: Candidates::Absent,
    };
    let mut out = [none; 40];
    for k in 0u8..40 {
        out[k as usize] = Pin {
            gpios: wired(lines, pins, k),
        };
    }
    out
}

// X1 and X2 follow the select.
fn board(lines: u8, pins: u8) -> Board {
    Board {
        socket: socket(lines, pins),
        pins,
        x1: Candidates::One(wrapping_add_u8(lines, 1)),
        x2: Candidates::One(wrapping_add_u8(lines, 2)),
    }
}

// Pins one after the other.
fn rising(first: u8) -> [u8; 24] {
    let mut out = [0u8; 24];
    let mut pin = first;
    for k in 0..24 {
        out[k] = pin;
        pin = wrapping_add_u8(pin, 1);
    }
    out
}

// In 16-bit mode address pin 0 is the pin of data line 15, as on chips with both modes.
fn address_pins(word_bytes: u8) -> [u8; 24] {
    if word_bytes == 2 {
        let mut pins = rising(20);
        pins[0] = 16;
        return pins;
    }
    rising(21)
}

// One line, cs1.
fn control() -> ControlLines {
    let cs1 = ControlLine { kind: 2, pin: 20 };
    ControlLines {
        lines: [cs1; 8],
        count: 1,
    }
}

// A number for 8-bit and one for 16-bit mode.
fn by_mode(word_bytes: u8, one: u16, two: u16) -> u16 {
    if word_bytes == 2 { two } else { one }
}

// The chips after chip 0 have 201 bytes or 200 words and a half, 128 words, and 99 bytes or words.
fn size(case: Case, k: u8) -> u16 {
    if k == 0 {
        return case.size;
    }
    if k == 1 {
        return by_mode(case.word_bytes, 201, 401);
    }
    if k == 2 {
        return by_mode(case.word_bytes, 128, 256);
    }
    by_mode(case.word_bytes, 99, 198)
}

fn chip(case: Case, k: u8) -> Chip {
    let lines = case.lines;
    Chip {
        address_pins: address_pins(case.word_bytes),
        num_address_pins: if case.word_bytes == 2 {
            wrapping_add_u8(lines, 1)
        } else {
            lines
        },
        data_pins: [1u8, 2, 3, 4, 5, 6, 7, 8, 9, 10, 11, 12, 13, 14, 15, 16],
        num_data_pins: if case.word_bytes == 2 { 16 } else { 8 },
        control: control(),
        size: size(case, k) as u32,
    }
}

fn cs1_low() -> CsConfig {
    CsConfig::ChipSelect {
        cs1: CsLogic::ActiveLow,
        cs2: None,
        cs3: None,
        cs4: None,
    }
}

fn cs1_selects() -> MultiCsConfig {
    MultiCsConfig {
        select: 2,
        commoned: [0u8; 8],
        num_commoned: 0,
        ignored: [0u8; 8],
        num_ignored: 0,
    }
}

fn description(case: Case) -> Description {
    let set_type = case.set_type;
    Description {
        board: board(case.lines, case.pins),
        package: Package::B,
        set_type,
        word_bytes: case.word_bytes,
        pin_offset: 0,
        max_image_size: case.limit,
        chips: [chip(case, 0), chip(case, 1), chip(case, 2), chip(case, 3)],
        num_chips: case.chips,
        cs_config: cs1_low(),
        has_multi: set_type.is_multi(),
        multi: cs1_selects(),
        qualifiers: [0u8; 8],
        num_qualifiers: 0,
    }
}

// Chip k's bytes stand from k * 512 on.
fn span(case: Case, k: u8) -> ImageSpan {
    ImageSpan {
        present: true,
        start: k as u32 * 512,
        length: size(case, k) as u32,
    }
}

fn spans(case: Case) -> [ImageSpan; 4] {
    [span(case, 0), span(case, 1), span(case, 2), span(case, 3)]
}

fn put(images: &mut [u8], at: usize, byte: u8) {
    if at < images.len() {
        images[at] = byte;
    }
}

// The images' byte n: other bytes for each chip.
fn image_byte(n: u16) -> u8 {
    let n = n as u32;
    ((n * 37 + n / 256 * 89) % 256) as u8
}

fn fill(images: &mut [u8]) {
    for n in 0u16..2048 {
        put(images, n as usize, image_byte(n));
    }
}

// How many words read-back has of chip k: none past the number of chips, and 256 at most.
fn words(case: Case, k: u8) -> u32
    ensures { result ≤ 256 }
{
    if case.chips <= k {
        return 0;
    }
    let size = size(case, k);
    let n = by_mode(case.word_bytes, size, size / 2);
    if 256 < n {
        return 256;
    }
    n as u32
}

fn bytes(case: Case, k: u8) -> u32
    ensures { result ≤ 512 }
{
    let n = words(case, k);
    if case.word_bytes == 2 {
        return 2 * n;
    }
    n
}

fn all_words(case: Case) -> u32
    ensures { result ≤ 1024 }
{
    words(case, 0) + words(case, 1) + words(case, 2) + words(case, 3)
}

// Whether n bytes of the output are those of the images.
fn same(output: &[u8], at: u32, images: &[u8], start: u32, n: u32) -> bool {
    let mut ok = true;
    for k in 0..n {
        let ours = entry(output, at as usize + k as usize);
        ok = ok & (ours == entry(images, start as usize + k as usize));
    }
    ok
}

// Whether a range of a buffer holds a byte throughout.
fn each(buffer: &[u8], from: u32, to: u32, byte: u8) -> bool {
    let mut ok = true;
    for k in from..to {
        ok = ok & (entry(buffer, k as usize) == byte);
    }
    ok
}

// Whether the output is the chips' words, chip after chip, and as before past them.
fn chips_read(case: Case, images: &[u8], output: &[u8]) -> bool {
    let first = bytes(case, 0);
    let second = first + bytes(case, 1);
    let third = second + bytes(case, 2);
    let all = third + bytes(case, 3);
    let low = same(output, 0, images, 0, first) & same(output, first, images, 512, second - first);
    let high = same(output, second, images, 1024, third - second)
        & same(output, third, images, 1536, all - third);
    low & high & each(output, all, 2048, JUNK)
}

// Whether each word's mark is 1, and the marks past them as before.
fn marked(case: Case, marks: &[u8]) -> bool {
    let n = all_words(case);
    each(marks, 0, n, 1) & each(marks, n, 1024, JUNK)
}

fn say_verdict(rt: &impl Print, case: Case, ok: bool) -> io::Result<()> {
    if ok {
        say(rt, b", reads back, ")?;
        say_number(rt, all_words(case) as u64)?;
        say(rt, b" words\n")
    } else {
        say(rt, b", DIFFERS\n")
    }
}

fn say_refusal(rt: &impl Print, why: Refusal) -> io::Result<()> {
    say(rt, b", REFUSED ")?;
    say_number(rt, why.number() as u64)?;
    say(rt, b"\n")
}

// Whether demand 3's premises hold of the slot, of its address layout and of the buffers.
fn say_wiring(rt: &impl Print, d: Description) -> io::Result<()> {
    let layout = derive_addr_layout(d).unwrap_or(no_layout());
    if well_wired(d, layout) & has_room(d, layout, 2048, 1024) {
        say(rt, b": well wired")
    } else {
        say(rt, b": NOT WELL WIRED")
    }
}

fn run(rt: &impl Print, name: &[u8], case: Case) -> io::Result<()> {
    let slot = description(case);
    say(rt, name)?;
    say_wiring(rt, slot)?;
    let mut images = [0u8; 2048];
    fill(&mut images);
    let mut table = [JUNK; 4096];
    let mut output = [JUNK; 2048];
    let mut marks = [JUNK; 1024];
    match round_trip(
        ByteOrder::LowFirst,
        slot,
        &images,
        spans(case),
        &mut table,
        &mut output,
        &mut marks,
    ) {
        Err(why) => say_refusal(rt, why),
        Ok(()) => {
            say_verdict(
                rt,
                case,
                chips_read(case, &images, &output) & marked(case, &marks),
            )
        }
    }
}

fn single(
    rt: &impl Print,
    name: &[u8],
    word_bytes: u8,
    lines: u8,
    size: u16,
    limit: u32,
) -> io::Result<()> {
    run(
        rt,
        name,
        Case {
            set_type: ChipSetType::Single,
            chips: 1,
            word_bytes,
            lines,
            size,
            limit,
            pins: 40,
        },
    )
}

// Chip 0 of 256 words.
fn set(
    rt: &impl Print,
    name: &[u8],
    set_type: ChipSetType,
    chips: u8,
    word_bytes: u8,
    pins: u8,
) -> io::Result<()> {
    run(
        rt,
        name,
        Case {
            set_type,
            chips,
            word_bytes,
            lines: 8,
            size: by_mode(word_bytes, 256, 512),
            limit: 8192,
            pins,
        },
    )
}

fn main(rt: HostRuntime) -> io::Result<()> {
    single(&rt, b"Single, w 1", 1, 8, 256, 8192)?;
    single(&rt, b"Single, w 1, 201 bytes", 1, 8, 201, 8192)?;
    single(&rt, b"Single, w 1, 2 excess lines", 1, 10, 1024, 256)?;
    single(&rt, b"Single, w 2", 2, 8, 512, 8192)?;
    single(&rt, b"Single, w 2, 401 bytes", 2, 8, 401, 8192)?;
    single(&rt, b"Single, w 2, 2 excess lines", 2, 10, 2048, 512)?;
    set(&rt, b"Banked of 2, w 1", ChipSetType::Banked, 2, 1, 40)?;
    set(&rt, b"Banked of 3, w 1", ChipSetType::Banked, 3, 1, 40)?;
    set(&rt, b"Banked of 4, w 1", ChipSetType::Banked, 4, 1, 40)?;
    set(&rt, b"Banked of 2, w 2", ChipSetType::Banked, 2, 2, 40)?;
    set(&rt, b"Banked of 3, w 2", ChipSetType::Banked, 3, 2, 40)?;
    set(&rt, b"Banked of 4, w 2", ChipSetType::Banked, 4, 2, 40)?;
    set(&rt, b"Multi of 2, w 1", ChipSetType::Multi, 2, 1, 40)?;
    set(&rt, b"Multi of 3, w 1", ChipSetType::Multi, 3, 1, 40)?;
    set(&rt, b"Multi of 2, w 2", ChipSetType::Multi, 2, 2, 40)?;
    set(&rt, b"Multi of 3, w 2", ChipSetType::Multi, 3, 2, 40)?;
    set(&rt, b"Single, w 1, 28 pins", ChipSetType::Single, 1, 1, 28)?;
    set(
        &rt,
        b"Multi of 3, w 2, 28 pins",
        ChipSetType::Multi,
        3,
        2,
        28,
    )
}
