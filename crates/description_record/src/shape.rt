// Which records are refused: a wrong length, a place that must be 0 and is not, a code that is none of its values.
ghost use Rattle.std.specs.Prelude.{◌≡◌, ◌+◌, ◌≤◌, length};
ghost use Rattle.description_record.specs.Record.{record_size, offset_in, logic_in, setting_in, head_in, cs_config_in, pairs_in, levels_in, chip_zeros, chip_places_in, well_formed};

use fields::whole;
use fields::whole::{entry, pair_in};

// Bytes of a record.
pub(crate) const SIZE: usize = 424;

fn offset_in(x: u8) -> bool
    ensures { result ≡ offset_in x }
{
    (x <= 4) | (252 <= x)
}

fn logic_in(x: u8) -> bool
    ensures { result ≡ logic_in x }
{
    x <= 2
}

fn setting_in(x: u8) -> bool
    ensures { result ≡ setting_in x }
{
    (x <= 2) | (x == 255)
}

fn head_in(b: &[u8; SIZE]) -> bool
    ensures { result ≡ head_in b.now }
{
    let package = entry(b, 1);
    let set_type = entry(b, 2);
    let offset = entry(b, 4);
    let has_multi = entry(b, 7);
    let inverted = whole::four_at(b, 12);
    let spare = entry(b, 26);
    let spare_2 = entry(b, 27);
    (package <= 1)
        & (set_type <= 2)
        & offset_in(offset)
        & (has_multi <= 1)
        & (inverted == 0)
        & (spare == 0)
        & (spare_2 == 0)
}

// The form is one of three; the settings that it does not use are 255.
fn cs_config_in(b: &[u8; SIZE]) -> bool
    ensures { result ≡ cs_config_in b.now }
{
    let form = entry(b, 16);
    let ce = entry(b, 17);
    let oe = entry(b, 18);
    let cs1 = entry(b, 19);
    let cs2 = entry(b, 20);
    let cs3 = entry(b, 21);
    let cs4 = entry(b, 22);
    let no_enables = (ce == 255) & (oe == 255);
    let no_selects = (cs1 == 255) & (cs2 == 255) & (cs3 == 255) & (cs4 == 255);
    if form == 0 {
        return no_enables & logic_in(cs1) & setting_in(cs2) & setting_in(cs3) & setting_in(cs4);
    }
    if form == 1 {
        return no_enables & no_selects;
    }
    (form == 2) & logic_in(ce) & logic_in(oe) & no_selects
}

fn pairs_in(b: &[u8; SIZE]) -> bool
    ensures { result ≡ pairs_in b.now }
{
    let mut ok = true;
    for k in 0..42 {
        ok = ok & pair_in(b, 52 + 2 * k);
    }
    ok
}

fn levels_in(b: &[u8], p: usize) -> bool
    requires { p + 72 ≤ length b.now }
    ensures { result ≡ levels_in b.now p }
{
    let mut ok = true;
    for k in 0..8 {
        ok = ok & (entry(b, p + 50 + 3 * k) == 0);
    }
    ok
}

fn chip_zeros(b: &[u8], p: usize) -> bool
    requires { p + 72 ≤ length b.now }
    ensures { result ≡ chip_zeros b.now p }
{
    (entry(b, p + 7) == 0) & levels_in(b, p)
}

fn chips_in(b: &[u8; SIZE]) -> bool
    ensures { result ≡ chip_places_in b.now }
{
    let mut ok = true;
    for k in 0..4 {
        ok = ok & chip_zeros(b, 136 + 72 * k);
    }
    ok
}

// Whether the bytes are a record. The length first: no place behind it is then tested for being there.
pub fn well_formed(b: &[u8]) -> bool
    ensures { result ≡ well_formed b.now }
{
    match <&[u8; SIZE]>::try_from(b) {
        Ok(record) => head_in(record) & cs_config_in(record) & pairs_in(record) & chips_in(record),
        Err(_) => false,
    }
}
