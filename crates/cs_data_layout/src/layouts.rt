// The layout that a choice makes.
ghost use Rattle.std.specs.Prelude.{◌≡◌, cond, ◌+◌, ◌≤◌, ◌<◌, ltb, get_or, take};
ghost use Rattle.lists.specs.Tab.{tab};
ghost use Rattle.listing.specs.Design.Packed.{list_of};
ghost use Rattle.cs_verdict.specs.Verdict.{all_of, base_of};
ghost use Rattle.cs_data_layout.specs.Choices.{ignore_index, qualifiers_from, select_line, num_commoned, commoned_line, cs_data_layout_from, cs_data_layout_of};
ghost use Rattle.cs_data_layout.specs.Design.Given.{LinesIn, Laying};

use crate::layout::{CsDataLayout, Qualifiers, SelectLine};
use crate::sets::excess_gpio;
use addr_layout::layout::AddrLayout;
use cs_choices::choices::{Fixed, Sets, whole};
use cs_roles::{HALF_ROLE, Roles, select_roles};
use cs_verdict::{above, base};
use gpio::set::{gap, gapless, lowest, width};
use listing::Listing;
use listing::choice::{first_gpios, resolve};
use listing::lines::commoned_kind;
use lists::array::entry;
use slot::description::Description;

// The place of the one GPIO that is missing.
fn ignore_index(select_gpios: u64) -> Option<u8>
    ensures { result ≡ ignore_index select_gpios }
{
    if gapless(select_gpios) {
        return None;
    }
    let missing = lowest(gap(select_gpios));
    let low = lowest(select_gpios);
    if missing < low {
        return Some(0);
    }
    Some((missing - low) as u8)
}

fn qualifiers(set: u64, base: u8) -> Option<Qualifiers>
    ensures { result ≡ qualifiers_from set base }
{
    if set == 0 {
        return None;
    }
    let low = lowest(set);
    Some(Qualifiers {
        base_qualifier_pin: above(base, low) as u8,
        num_qualifier_pins: width(set) as u8,
        qualifier_inactive_pattern: ((set >> low) % 0x100) as u8,
    })
}

fn select_line(r: Roles, h: AddrLayout, gpio: u8, k: usize) -> SelectLine
    requires { (k < 64) × (r.count ≤ 8) }
    ensures { result ≡ select_line (take r.count r.roles) h (λ j. gpio) k }
{
    let count = r.count;
    if k < count {
        let roles = r.roles;
        return SelectLine {
            role: entry(&roles, k),
            gpio,
        };
    }
    if k < count + h.num_excess as usize {
        return SelectLine {
            role: HALF_ROLE,
            gpio: excess_gpio(h, k - count),
        };
    }
    SelectLine { role: 0, gpio: 0 }
}

// How many of the 30 select lines there are; the others are left as they are filled at first.
fn num_lines(roles: usize, excess: u8) -> usize
    requires { roles ≤ 8 }
    ensures { (result ≡ cond (ltb (roles + excess) 30) (roles + excess) 30) × (result ≤ 30) }
{
    let all = roles + excess as usize;
    if all < 30 { all } else { 30 }
}

// The select lines with their GPIOs, which stand from `at` on among the resolved ones.
fn select_lines(r: Roles, h: AddrLayout, gpios: [u8; 30], at: usize) -> [SelectLine; 30]
    requires { (r.count ≤ 8) × (at ≤ 64) }
    ensures { result ≡ tab 30 (λ k. select_line (take r.count r.roles) h (λ j. get_or gpios (at + j) 0) k) }
{
    let count = num_lines(r.count, h.num_excess);
    let mut out = [SelectLine { role: 0, gpio: 0 }; 30];
    for k in 0..count {
        out[k] = select_line(r, h, entry(&gpios, at + k), k);
    }
    out
}

fn commoned_count(d: Description) -> u8
    ensures { result ≡ num_commoned d }
{
    let set_type = d.set_type;
    let multi = d.multi;
    if set_type.is_multi() {
        multi.num_commoned
    } else {
        0
    }
}

fn commoned_line(d: Description, gpio: u8, k: usize) -> SelectLine
    ensures { result ≡ commoned_line d (λ j. gpio) k }
{
    if k < commoned_count(d) as usize {
        return SelectLine {
            role: commoned_kind(d, k),
            gpio,
        };
    }
    SelectLine { role: 0, gpio: 0 }
}

fn commoned_lines(d: Description, gpios: [u8; 30], at: usize) -> [SelectLine; 6]
    requires { at ≤ 64 }
    ensures { result ≡ tab 6 (λ k. commoned_line d (λ j. get_or gpios (at + j) 0) k) }
{
    let mut out = [SelectLine { role: 0, gpio: 0 }; 6];
    for k in 0..6 {
        out[k] = commoned_line(d, entry(&gpios, at + k), k);
    }
    out
}

// The layout of resolved pins.
fn layout(d: Description, h: AddrLayout, gpios: [u8; 30], s: Sets, q: u64) -> CsDataLayout
    requires { LinesIn d h q }
    ensures { result
        ≡ cs_data_layout_from d h (λ k. get_or gpios k 0) s.data_gpios s.select_gpios
        (base_of (all_of s.data_gpios s.select_gpios q)) }
{
    let chip = d.chip0();
    let data = chip.num_data_pins as usize;
    let roles = select_roles(d);
    let base = base(s.data_gpios | s.select_gpios | q);
    CsDataLayout {
        gpio_base: base,
        base_data_pin: above(base, lowest(s.data_gpios)) as u8,
        num_data_pins: chip.num_data_pins,
        data_pin_gpios: first_gpios(gpios, data),
        base_cs_pin: above(base, lowest(s.select_gpios)) as u8,
        num_cs_pins: width(s.select_gpios) as u8,
        cs_ignore_index: ignore_index(s.select_gpios),
        select_lines: select_lines(roles, h, gpios, data),
        num_select_lines: roles.count as u8 + h.num_excess,
        commoned_lines: commoned_lines(d, gpios, data + roles.count),
        num_commoned_lines: commoned_count(d),
        qualifiers: qualifiers(q, base),
    }
}

// The layout that a choice makes.
pub fn laid_out(
    d: Description,
    h: AddrLayout,
    l: Listing,
    fixed: Fixed,
    choice: u32,
) -> CsDataLayout
    requires { Laying d h l fixed }
    ensures { result ≡ cs_data_layout_of d h (list_of l) choice }
{
    layout(
        d,
        h,
        resolve(l, choice),
        whole(l, fixed, choice),
        fixed.qualifiers,
    )
}
