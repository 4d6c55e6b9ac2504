// Which control line tells the chips of a Multi set apart, which lines they share and which count for nothing, from chip
// 0's lines and settings and those of the other chips.
#![tactic(auto)]

ghost use Rattle.std.specs.Prelude.{◌≡◌, cond, ◌≤◌, ◌<◌};
ghost use Rattle.multi_select.specs.MultiCsConfig.{named, named_count, nothing, multi_answer};
ghost use Rattle.multi_select.specs.Design.Sorted.{line_part, sorted_with, sorted};

use control::cs_config::line_ignored;
use domain::chip::{control_in, kind_at};
use refusal::Refusal;
use slot::description::{ControlLines, CsConfig, MultiCsConfig};
use slot::kinds::CS4;

// The part that a control line has in a Multi set.
#[derive(Clone, Copy)]
pub enum Part {
    Dropped,
    Select,
    Commoned,
    Ignored,
}

// The lines passed so far by their parts, and whether one of them was a select. The flag stands beside the lists, since they count
// without a select too, in the definition (`sorted`).
#[derive(Clone, Copy)]
pub struct Sorted {
    pub config: MultiCsConfig,
    pub found: bool,
}

// What a line adds to the number of named lines.
fn counted(kind: u8) -> u8
    ensures { (result ≡ cond (named kind) 1 0) × (result ≤ 1) }
{
    if kind <= CS4 {
        return 1;
    }
    0
}

fn named_count(lines: ControlLines) -> u8
    ensures { result ≡ named_count lines }
{
    let n = lines.count as usize;
    let mut count: u8 = 0;
    for k in 0..n {
        let kind = kind_at(lines, k);
        count += counted(kind);
    }
    count
}

// The part of the line of a kind. A line that has no other beside it is the select, whatever its setting.
fn part_of(single: bool, chip0: CsConfig, secondary: CsConfig, kind: u8) -> Part
    ensures { result ≡ line_part single chip0 secondary kind }
{
    if 5 < kind {
        return Part::Dropped;
    }
    if single | !line_ignored(kind, secondary) {
        return Part::Select;
    }
    if line_ignored(kind, chip0) {
        return Part::Ignored;
    }
    Part::Commoned
}

// The last select wins: an earlier one goes to no list.
fn with_select(s: Sorted, kind: u8) -> Sorted
    ensures { result ≡ sorted_with Part.Select kind s }
{
    let mut config = s.config;
    config.select = kind;
    Sorted {
        config,
        found: true,
    }
}

fn with_commoned(s: Sorted, kind: u8) -> Sorted
    requires { s.config.num_commoned < 8 }
    ensures { result ≡ sorted_with Part.Commoned kind s }
{
    let mut config = s.config;
    let n = config.num_commoned as usize;
    config.commoned[n] = kind;
    config.num_commoned += 1;
    Sorted {
        config,
        found: s.found,
    }
}

fn with_ignored(s: Sorted, kind: u8) -> Sorted
    requires { s.config.num_ignored < 8 }
    ensures { result ≡ sorted_with Part.Ignored kind s }
{
    let mut config = s.config;
    let n = config.num_ignored as usize;
    config.ignored[n] = kind;
    config.num_ignored += 1;
    Sorted {
        config,
        found: s.found,
    }
}

// A line joins the lines of its part.
fn place(part: Part, kind: u8, s: Sorted) -> Sorted
    requires { (s.config.num_commoned < 8) × (s.config.num_ignored < 8) }
    ensures { result ≡ sorted_with part kind s }
{
    match part {
        Part::Dropped => s,
        Part::Select => with_select(s, kind),
        Part::Commoned => with_commoned(s, kind),
        Part::Ignored => with_ignored(s, kind),
    }
}

// No line in any part.
fn nothing() -> MultiCsConfig
    ensures { result ≡ nothing }
{
    MultiCsConfig {
        select: 0,
        commoned: [0u8; 8],
        num_commoned: 0,
        ignored: [0u8; 8],
        num_ignored: 0,
    }
}

// Chip 0's lines, each with its part.
fn sort(lines: ControlLines, chip0: CsConfig, secondary: CsConfig) -> Sorted
    requires { lines.count ≤ 8 }
    ensures { result ≡ sorted lines chip0 secondary lines.count }
{
    let single = named_count(lines) == 1;
    let n = lines.count as usize;
    let config = nothing();
    let mut s = Sorted {
        config,
        found: false,
    };
    for k in 0..n {
        let kind = kind_at(lines, k);
        let part = part_of(single, chip0, secondary, kind);
        s = place(part, kind, s);
    }
    s
}

// The select configuration of a Multi set: `secondary` are the settings that the chips after chip 0 share.
pub fn derive_multi_cs_config(
    lines: ControlLines,
    chip0: CsConfig,
    secondary: CsConfig,
) -> Result<MultiCsConfig, Refusal>
    ensures { result ≡ multi_answer lines chip0 secondary }
{
    if !control_in(lines) {
        return Err(Refusal::OutOfDomain);
    }
    let s = sort(lines, chip0, secondary);
    if s.found {
        Ok(s.config)
    } else {
        Err(Refusal::NoActiveLine)
    }
}
