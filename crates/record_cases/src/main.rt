// Cases through the record. The edges of the domain: for each number the smallest and the largest that is in, and one past
// each; a line of output is what was written where, and whether the description was taken. Then document 01's bench cases
// of both searches and of the build.
#![tactic(auto)]

ghost use Rattle.std.specs.Prelude.{◌≤◌};

use addr_layout::derive_addr_layout;
use addr_layout::layout::{AddrLayout, no_layout};
use build_args::BuildArgs;
use build_args::images::ImageSpan;
use cs_data_layout::derive_cs_data_layout;
use cs_data_layout::layout::CsDataLayout;
use rom_image::build_rom_image;
use say::{say, say_number, say_refusal};
use slot::description::Description;
use std::io;
use std::num::wrapping_add_u8;
use words::ByteOrder;

fn with(b: [u8; 424], place: usize, value: u8) -> [u8; 424] {
    let mut out = b;
    if place < 424 {
        out[place] = value;
    }
    out
}

// Numbers that rise by one from `value`, at each `step`-th place of a range.
fn rising(b: [u8; 424], from: usize, to: usize, step: usize, value: u8) -> [u8; 424]
    requires { (1 ≤ step) × (step ≤ 3) × (to ≤ 424) }
{
    let mut out = b;
    let mut x = value;
    for at in (from..to).step_by(step) {
        out[at] = x;
        x = wrapping_add_u8(x, 1);
    }
    out
}

// The byte at each `step`-th place of a range.
fn repeated(b: [u8; 424], from: usize, to: usize, step: usize, value: u8) -> [u8; 424]
    requires { (1 ≤ step) × (step ≤ 3) × (to ≤ 424) }
{
    let mut out = b;
    for at in (from..to).step_by(step) {
        out[at] = value;
    }
    out
}

// A chip with address pins 1 to 20, data pins 21 to 36, ce at 37 and oe at 38, and entries past these counts.
fn with_chip(b: [u8; 424], place: usize) -> [u8; 424]
    requires { place ≤ 352 }
{
    let sized = with(b, place + 2, 16);
    let counted = with(
        with(with(sized, place + 4, 20), place + 5, 16),
        place + 6,
        2,
    );
    let addressed = rising(counted, place + 8, place + 32, 1, 1);
    let wired = rising(addressed, place + 32, place + 48, 1, 21);
    let others = repeated(
        repeated(wired, place + 54, place + 72, 3, 6),
        place + 55,
        place + 72,
        3,
        1,
    );
    let controlled = rising(others, place + 48, place + 54, 3, 0);
    rising(controlled, place + 49, place + 54, 3, 37)
}

// A Single slot of four such chips' places on a socket of 40 pins, pin n at GPIO n.
fn sample() -> [u8; 424] {
    let head = with(with(with([0u8; 424], 0, 40), 3, 1), 5, 1);
    let sized = with(head, 10, 8);
    let set = repeated(with(sized, 16, 1), 17, 23, 1, 255);
    let empty = repeated(set, 52, 136, 1, 255);
    let socket = rising(empty, 52, 132, 2, 1);
    let chips = with_chip(with_chip(socket, 136), 208);
    with_chip(with_chip(chips, 280), 352)
}

fn say_verdict(rt: &impl Print, ok: bool) -> io::Result<()> {
    if ok {
        say(rt, b" in\n")
    } else {
        say(rt, b" 1\n")
    }
}

fn taken(b: [u8; 424]) -> bool {
    let decoded = description_record::decode(&b);
    let answer = decoded.answer;
    match answer {
        Ok(()) => domain::description::description_in(decoded.description),
        Err(_) => false,
    }
}

fn say_place(rt: &impl Print, place: usize, value: u8) -> io::Result<()> {
    say_number(rt, place as u64)?;
    say(rt, b"=")?;
    say_number(rt, value as u64)
}

// One number of the sample changed.
fn one(rt: &impl Print, place: usize, value: u8) -> io::Result<()> {
    say_place(rt, place, value)?;
    say_verdict(rt, taken(with(sample(), place, value)))
}

fn two(rt: &impl Print, place: usize, value: u8, place_2: usize, value_2: u8) -> io::Result<()> {
    say_place(rt, place, value)?;
    say(rt, b" ")?;
    say_place(rt, place_2, value_2)?;
    say_verdict(
        rt,
        taken(with(with(sample(), place, value), place_2, value_2)),
    )
}

// A number of four bytes.
fn four(rt: &impl Print, place: usize, b0: u8, b1: u8, b2: u8, b3: u8) -> io::Result<()> {
    say_number(rt, place as u64)?;
    say(rt, b"=")?;
    say_number(
        rt,
        b3 as u64 * 0x100_0000 + b2 as u64 * 0x1_0000 + b1 as u64 * 0x100 + b0 as u64,
    )?;
    if place < 420 {
        let low = with(with(sample(), place, b0), place + 1, b1);
        say_verdict(rt, taken(with(with(low, place + 2, b2), place + 3, b3)))?;
    }
    Ok(())
}

fn board(rt: &impl Print) -> io::Result<()> {
    say(rt, b"board\n")?;
    one(rt, 0, 23)?;
    one(rt, 0, 24)?;
    one(rt, 0, 28)?;
    one(rt, 0, 32)?;
    one(rt, 0, 40)?;
    one(rt, 0, 41)?;
    one(rt, 1, 1)?;
    one(rt, 52, 47)?;
    one(rt, 52, 48)?;
    one(rt, 53, 0)?;
    one(rt, 53, 1)?;
    one(rt, 53, 47)?;
    one(rt, 53, 48)?;
    one(rt, 130, 255)?;
    two(rt, 130, 255, 131, 3)?;
    one(rt, 132, 47)?;
    one(rt, 132, 48)?;
    one(rt, 133, 5)?;
    two(rt, 134, 0, 135, 0)?;
    two(rt, 134, 0, 135, 1)
}

// The sample on A and on a socket of 24 pins, with candidates at the first 29 places alone.
fn sample_on_a() -> [u8; 424] {
    repeated(with(with(sample(), 0, 24), 1, 1), 110, 132, 1, 255)
}

// Two numbers of it changed, which are the candidates of a pin.
fn pair(rt: &impl Print, place: usize, first: u8, second: u8) -> io::Result<()> {
    if place < 423 {
        say_place(rt, place, first)?;
        say(rt, b" ")?;
        say_place(rt, place + 1, second)?;
        say_verdict(
            rt,
            taken(with(with(sample_on_a(), place, first), place + 1, second)),
        )?;
    }
    Ok(())
}

// The edge of A: at the first place, at the last, which is past the board's pins, and at both X pins.
fn package(rt: &impl Print) -> io::Result<()> {
    say(rt, b"package\n")?;
    one(rt, 1, 2)?;
    pair(rt, 52, 29, 255)?;
    pair(rt, 52, 30, 255)?;
    pair(rt, 52, 0, 29)?;
    pair(rt, 52, 0, 30)?;
    pair(rt, 52, 0, 47)?;
    pair(rt, 130, 29, 255)?;
    pair(rt, 130, 30, 255)?;
    pair(rt, 132, 29, 255)?;
    pair(rt, 132, 30, 255)?;
    pair(rt, 134, 28, 29)?;
    pair(rt, 134, 29, 30)
}

fn numbers(rt: &impl Print) -> io::Result<()> {
    say(rt, b"numbers\n")?;
    one(rt, 2, 1)?;
    one(rt, 2, 2)?;
    two(rt, 2, 2, 7, 1)?;
    one(rt, 2, 3)?;
    one(rt, 3, 0)?;
    one(rt, 3, 2)?;
    one(rt, 3, 3)?;
    one(rt, 4, 4)?;
    one(rt, 4, 5)?;
    one(rt, 4, 251)?;
    one(rt, 4, 252)?;
    one(rt, 4, 255)?;
    one(rt, 5, 0)?;
    one(rt, 5, 4)?;
    one(rt, 5, 5)?;
    one(rt, 6, 255)?;
    one(rt, 7, 2)?;
    four(rt, 8, 255, 0, 0, 0)?;
    four(rt, 8, 0, 1, 0, 0)?;
    four(rt, 8, 0, 0, 16, 0)?;
    four(rt, 8, 1, 0, 16, 0)?;
    one(rt, 12, 1)?;
    one(rt, 15, 1)?;
    one(rt, 26, 1)?;
    one(rt, 27, 1)
}

fn settings(rt: &impl Print) -> io::Result<()> {
    say(rt, b"settings\n")?;
    one(rt, 16, 0)?;
    two(rt, 16, 0, 19, 2)?;
    two(rt, 16, 0, 19, 3)?;
    two(rt, 16, 0, 17, 0)?;
    one(rt, 16, 2)?;
    one(rt, 16, 3)?;
    one(rt, 17, 0)?;
    one(rt, 20, 0)
}

fn multi(rt: &impl Print) -> io::Result<()> {
    say(rt, b"multi\n")?;
    two(rt, 7, 1, 23, 5)?;
    two(rt, 7, 1, 23, 6)?;
    two(rt, 7, 0, 23, 6)?;
    two(rt, 7, 1, 24, 6)?;
    two(rt, 7, 1, 24, 7)?;
    two(rt, 7, 1, 25, 6)?;
    two(rt, 7, 1, 25, 7)
}

fn chips(rt: &impl Print) -> io::Result<()> {
    say(rt, b"chips\n")?;
    four(rt, 136, 0, 0, 0, 0)?;
    four(rt, 136, 0, 0, 0, 1)?;
    four(rt, 136, 1, 0, 0, 1)?;
    one(rt, 140, 0)?;
    one(rt, 140, 1)?;
    two(rt, 140, 1, 3, 2)?;
    two(rt, 140, 2, 3, 2)?;
    one(rt, 140, 24)?;
    one(rt, 140, 25)?;
    one(rt, 141, 0)?;
    one(rt, 141, 1)?;
    one(rt, 141, 17)?;
    one(rt, 142, 0)?;
    one(rt, 142, 8)?;
    one(rt, 142, 9)?;
    one(rt, 143, 1)?;
    one(rt, 144, 0)?;
    one(rt, 144, 40)?;
    one(rt, 144, 41)?;
    one(rt, 168, 0)?;
    one(rt, 168, 41)?;
    one(rt, 184, 6)?;
    one(rt, 184, 7)?;
    one(rt, 184, 1)?;
    two(rt, 184, 6, 187, 6)?;
    one(rt, 185, 0)?;
    one(rt, 185, 41)?;
    one(rt, 186, 1)?;
    two(rt, 5, 2, 212, 0)?;
    one(rt, 212, 0)
}

// Whether the address search refuses the description by number 1.
fn address_taken(d: Description) -> bool {
    match derive_addr_layout(d) {
        Ok(_) => true,
        Err(r) => r.number() != 1,
    }
}

// The searches' own counts: `lines` two-candidate pins from socket pin `first` on.
fn searches(
    rt: &impl Print,
    set_type: u8,
    chips: u8,
    first: usize,
    lines: usize,
    x1: u8,
) -> io::Result<()> {
    if 40 < first {
        return Ok(());
    }
    if 40 < lines {
        return Ok(());
    }
    let slot = with(
        with(with(with(sample(), 2, set_type), 5, chips), 7, 1),
        132,
        3,
    );
    let bonded = repeated(
        with(slot, 133, x1),
        51 + 2 * first,
        51 + 2 * (first + lines),
        2,
        0,
    );
    let decoded = description_record::decode(&bonded);
    say(rt, b"address search")?;
    say_verdict(rt, address_taken(decoded.description))?;
    say(rt, b"select search")?;
    say_verdict(rt, cs_pins::in_domain(decoded.description))
}

fn say_layout(rt: &impl Print, layout: AddrLayout) -> io::Result<()> {
    let gpios = layout.gpios;
    say(rt, b"third line at ")?;
    say_number(rt, gpios[2] as u64)?;
    say(rt, b", score ")?;
    say_number(
        rt,
        layout.num_addr_pins as u64 * 1000 + layout.gpio_base as u64,
    )?;
    say(rt, b"\n")
}

// The sample with three address lines, the third with a second candidate.
fn three_lines(rt: &impl Print, first: u8, second: u8, third: u8, or: u8) -> io::Result<()> {
    let few = with(with(with(sample(), 140, 3), 52, first), 54, second);
    let decoded = description_record::decode(&with(with(few, 56, third), 57, or));
    match derive_addr_layout(decoded.description) {
        Ok(layout) => say_layout(rt, layout),
        Err(r) => say_refusal(rt, r),
    }
}

fn say_ignore_index(rt: &impl Print, layout: CsDataLayout) -> io::Result<()> {
    let index = layout.cs_ignore_index;
    match index {
        None => say(rt, b"no ignore index\n"),
        Some(k) => {
            say(rt, b"ignore index ")?;
            say_number(rt, k as u64)?;
            say(rt, b"\n")
        }
    }
}

// The sample with ce and oe at two GPIOs, changed further by the caller.
fn two_selects(rt: &impl Print, b: [u8; 424], ce: u8, oe: u8) -> io::Result<()> {
    let decoded = description_record::decode(&with(with(b, 124, ce), 126, oe));
    match derive_cs_data_layout(decoded.description, None) {
        Ok(layout) => say_ignore_index(rt, layout),
        Err(r) => say_refusal(rt, r),
    }
}

// A Multi set of one chip: ce its select, oe commoned, and a cs1 line at GPIO 19 that is ignored.
fn multi_sample() -> [u8; 424] {
    let set = with(with(with(sample(), 2, 2), 7, 1), 24, 1);
    let configured = with(with(with(set, 25, 1), 28, 1), 36, 2);
    let controlled = with(with(with(configured, 142, 3), 190, 2), 191, 39);
    with(controlled, 128, 19)
}

// A table of four entries, address lines at bits 0 and 1.
fn two_lines() -> AddrLayout {
    let mut a = no_layout();
    a.num_addr_pins = 2;
    a.num_lines = 2;
    a.gpios[1] = 1;
    a
}

// Eight data lines on these GPIOs.
fn data_lines(gpios: [u8; 16]) -> CsDataLayout {
    let mut c = cs_data_layout::layout::no_layout();
    c.num_data_pins = 8;
    c.data_pin_gpios = gpios;
    c
}

fn say_byte(rt: &impl Print, byte: u8) -> io::Result<()> {
    say_number(rt, byte as u64)
}

fn say_entry(rt: &impl Print, table: &[u8], index: usize) -> io::Result<()> {
    if index < table.len() {
        say(rt, b"entry ")?;
        say_number(rt, index as u64)?;
        say(rt, b": ")?;
        say_byte(rt, table[index])?;
        say(rt, b"\n")?;
    }
    Ok(())
}

// The sample with a chip of `size` bytes.
fn one_entry(
    rt: &impl Print,
    size: u8,
    gpios: [u8; 16],
    bytes: &[u8],
    index: usize,
) -> io::Result<()> {
    let decoded = description_record::decode(&with(with(sample(), 136, size), 138, 0));
    let chip = ImageSpan {
        present: true,
        start: 0,
        length: size as u32,
    };
    let mut table = [0u8; 4];
    let description = decoded.description;
    let args = BuildArgs {
        description,
        addr: two_lines(),
        cs_data: data_lines(gpios),
        spans: [chip; 4],
    };
    match build_rom_image(ByteOrder::LowFirst, args, bytes, &mut table) {
        Ok(()) => say_entry(rt, &table, index),
        Err(r) => say_refusal(rt, r),
    }
}

fn main(rt: HostRuntime) -> io::Result<()> {
    board(&rt)?;
    package(&rt)?;
    numbers(&rt)?;
    settings(&rt)?;
    multi(&rt)?;
    chips(&rt)?;
    say(&rt, b"two-candidate pins\n")?;
    searches(&rt, 0, 1, 1, 16, 4)?;
    searches(&rt, 0, 1, 1, 17, 255)?;
    searches(&rt, 1, 2, 1, 16, 255)?;
    searches(&rt, 1, 2, 1, 16, 4)?;
    searches(&rt, 0, 1, 21, 16, 4)?;
    searches(&rt, 0, 1, 21, 17, 255)?;
    searches(&rt, 2, 2, 22, 15, 4)?;
    searches(&rt, 2, 2, 21, 16, 4)?;
    searches(&rt, 2, 1, 21, 16, 4)?;
    say(&rt, b"address search\n")?;
    three_lines(&rt, 45, 46, 47, 255)?;
    three_lines(&rt, 8, 15, 9, 10)?;
    say(&rt, b"select search\n")?;
    two_selects(&rt, sample(), 18, 20)?;
    two_selects(&rt, sample(), 18, 21)?;
    two_selects(&rt, multi_sample(), 18, 20)?;
    say(&rt, b"build\n")?;
    let reversed = [7u8, 6, 5, 4, 3, 2, 1, 0, 0, 0, 0, 0, 0, 0, 0, 0];
    let in_order = [0u8, 1, 2, 3, 4, 5, 6, 7, 0, 0, 0, 0, 0, 0, 0, 0];
    one_entry(&rt, 1, reversed, b"\xAA", 0)?;
    one_entry(&rt, 3, in_order, b"\x10\x11\x12", 3)?;
    one_entry(&rt, 2, in_order, b"\x10\x11\x12", 3)
}
