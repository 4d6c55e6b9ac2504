// The GPIOs that no choice changes: excess address lines and qualifiers, as the address layout handed in has them, and the
// ignored lines of a Multi set.
ghost use Rattle.std.specs.Prelude.{◌≡◌, true, ◌<◌, get_or};
ghost use Rattle.gpio.specs.Candidates.{candidates_in};
ghost use Rattle.domain.specs.Domain.{description_in};
ghost use Rattle.addr_layout.specs.Layout.{layout_in};
ghost use Rattle.cs_data_layout.specs.Choices.{excess_gpio, excess_set, qualifier_set, with_candidates, ignored_at, ignored_set};
ghost use Rattle.cs_data_layout.specs.Design.Given.{HandedIn};

use addr_layout::layout::AddrLayout;
use cs_pins::kind_listed;
use domain::qualifiers::qualifier_gpio;
use gpio::candidates::Candidates;
use gpio::set::with;
use lists::array::entry;
use slot::description::Description;

// The GPIO of the `k`-th excess line.
pub fn excess_gpio(h: AddrLayout, k: usize) -> u8
    requires { k < 64 }
    ensures { result ≡ excess_gpio h k }
{
    let gpios = h.gpios;
    entry(&gpios, h.num_lines as usize + k)
}

// The GPIOs of the address lines past the table's reach, which select.
pub fn excess_set(h: AddrLayout) -> u64
    requires { layout_in h ≡ true }
    ensures { result ≡ excess_set h }
{
    let count = h.num_excess as usize;
    let mut s: u64 = 0;
    for k in 0..count {
        s = with(s, excess_gpio(h, k));
    }
    s
}

// The GPIOs of the qualifiers.
pub fn qualifier_set(d: Description, h: AddrLayout) -> u64
    requires { HandedIn d h }
    ensures { result ≡ qualifier_set d h }
{
    let qualifiers = d.qualifiers;
    let gpios = h.gpios;
    let count = d.num_qualifiers as usize;
    let mut s: u64 = 0;
    for k in 0..count {
        s = with(s, qualifier_gpio(qualifiers, gpios, k));
    }
    s
}

// The set, with all candidates of a pin.
fn with_candidates(s: u64, gpios: Candidates) -> u64
    requires { candidates_in gpios ≡ true }
    ensures { result ≡ with_candidates s gpios }
{
    match gpios {
        Candidates::Absent => s,
        Candidates::One(g) => with(s, g),
        Candidates::Two(g, h) => with(with(s, g), h),
    }
}

fn ignored_kind(d: Description, k: usize) -> u8
    ensures { result ≡ get_or d.multi.ignored k 0 }
{
    let multi = d.multi;
    let kinds = multi.ignored;
    entry(&kinds, k)
}

fn ignored_lines(d: Description) -> u64
    requires { description_in d ≡ true }
    ensures { result ≡ ignored_at d d.multi.num_ignored }
{
    let multi = d.multi;
    let count = multi.num_ignored as usize;
    let mut s: u64 = 0;
    for k in 0..count {
        let packed = kind_listed(d, ignored_kind(d, k));
        let pin = packed.listed();
        let gpios = pin.gpios;
        s = with_candidates(s, gpios);
    }
    s
}

// All candidates of the ignored lines.
pub fn ignored_set(d: Description) -> u64
    requires { description_in d ≡ true }
    ensures { result ≡ ignored_set d }
{
    let set_type = d.set_type;
    if set_type.is_multi() {
        return ignored_lines(d);
    }
    0
}
