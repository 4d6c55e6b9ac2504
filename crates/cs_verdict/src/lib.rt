// The verdict on one choice of the select and data search: its data GPIOs, then its select GPIOs, then the window of all, and the
// score if it passes.
#![tactic(auto)]

ghost use Rattle.std.specs.Prelude.{◌≡◌, ◌-◌, ◌≤◌};
ghost use Rattle.cs_verdict.specs.Verdict.{selectable, base_of, in_one_window, score_of, verdict_of};

use control::alg_preference::cs_alg_preference;
use gpio::set::{end, gapless, lowest, size, width};
use gpio::window::Window;

// What a choice fails on first, or that it fits.
#[derive(Clone, Copy)]
pub enum Verdict {
    DataGap,
    // The refused set.
    SelectGap(u64),
    OutsideWindow,
    // The score.
    Fits(u32),
}

// Whether the PIO can read the selects: no GPIO is missing between them, or one, if it may be passed over.
fn selectable(multi: bool, select_gpios: u64) -> bool
    ensures { result ≡ selectable multi select_gpios }
{
    let whole = gapless(select_gpios);
    whole | (!multi & (width(select_gpios) == size(select_gpios) + 1))
}

// The base of the window that all GPIOs are looked for in.
pub fn base(all: u64) -> u8
    ensures { result ≡ base_of all }
{
    let window = Window::over(lowest(all) as u8);
    window.base
}

// What is left of `x` above a base; 0 at or below it.
pub fn above(base: u8, x: u32) -> u32
    ensures value { result ≡ x - base }
    ensures upper_bound { result ≤ x }
{
    let from = base as u32;
    if x < from { 0 } else { x - from }
}

fn in_window(all: u64) -> bool
    ensures { result ≡ in_one_window all }
{
    let base = base(all);
    let span = above(base, end(all));
    Window::fits(base, span as u8)
}

fn score(select_gpios: u64, qualifiers: u64, all: u64) -> u32
    ensures { result ≡ score_of select_gpios qualifiers all }
{
    let preference = cs_alg_preference(qualifiers != 0, !gapless(select_gpios));
    preference as u32 * 1000 + width(all)
}

// What a choice with these sets of GPIOs comes to.
pub fn judge(multi: bool, qualifiers: u64, data_gpios: u64, select_gpios: u64) -> Verdict
    ensures { result ≡ verdict_of multi qualifiers data_gpios select_gpios }
{
    if gapless(data_gpios) {
        if selectable(multi, select_gpios) {
            let all = data_gpios | select_gpios | qualifiers;
            if in_window(all) {
                return Verdict::Fits(score(select_gpios, qualifiers, all));
            }
            return Verdict::OutsideWindow;
        }
        return Verdict::SelectGap(select_gpios);
    }
    Verdict::DataGap
}
