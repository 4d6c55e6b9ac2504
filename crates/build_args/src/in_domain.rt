// Number 1 in a build: the description, and both layouts that are handed in.
ghost use Rattle.std.specs.Prelude.{◌≡◌, true, false};
ghost use Rattle.build_args.specs.Domain.{select_line_of, select_line_in, select_lines_in, qualifier_pin_in, cs_data_in, build_in};

use crate::BuildArgs;
use addr_layout::layout::layout_in;
use cs_data_layout::layout::{CsDataLayout, Qualifiers, SelectLine};
use cs_roles::HALF_ROLE;
use domain::description::description_in;
use domain::qualifiers::qualifiers_in;
use gpio::LAST_GPIO;
use lists::array::all_between;

fn select_line(c: CsDataLayout, k: usize) -> SelectLine
    ensures { result ≡ select_line_of c false k }
{
    let none = SelectLine { role: 0, gpio: 0 };
    c.select_lines.get(k).copied().unwrap_or(none)
}

fn commoned_line(c: CsDataLayout, k: usize) -> SelectLine
    ensures { result ≡ select_line_of c true k }
{
    let none = SelectLine { role: 0, gpio: 0 };
    c.commoned_lines.get(k).copied().unwrap_or(none)
}

// A commoned line, or a select line; all 0 past the last.
pub fn line_of(c: CsDataLayout, commoned: bool, k: usize) -> SelectLine
    ensures { result ≡ select_line_of c commoned k }
{
    if commoned {
        return commoned_line(c, k);
    }
    select_line(c, k)
}

fn select_line_in(l: SelectLine) -> bool
    ensures { result ≡ select_line_in l }
{
    (l.role <= HALF_ROLE) & (l.gpio <= LAST_GPIO)
}

fn select_lines_in(c: CsDataLayout, commoned: bool, count: u8) -> bool
    ensures { result ≡ select_lines_in c commoned count }
{
    let n = count as usize;
    let mut ok = true;
    for k in 0..n {
        ok = ok & select_line_in(line_of(c, commoned, k));
    }
    ok
}

fn qualifier_pin_in(qualifiers: Option<Qualifiers>) -> bool
    ensures { result ≡ qualifier_pin_in qualifiers }
{
    match qualifiers {
        None => true,
        Some(q) => q.base_qualifier_pin <= LAST_GPIO,
    }
}

// Whether a select layout keeps to the domain.
pub fn cs_data_in(c: CsDataLayout) -> bool
    ensures { result ≡ cs_data_in c }
{
    let gpios = c.data_pin_gpios;
    let q = c.qualifiers;
    let bases_in = (c.gpio_base <= LAST_GPIO)
        & (c.base_data_pin <= LAST_GPIO)
        & (c.base_cs_pin <= LAST_GPIO);
    let qualifiers_in = qualifier_pin_in(q);
    let n = c.num_data_pins;
    let data_in = (1 <= n) & (n <= 16) & all_between(&gpios, n, 0, LAST_GPIO);
    let selects_in = (c.num_select_lines <= 30) & select_lines_in(c, false, c.num_select_lines);
    let commoned_in = (c.num_commoned_lines <= 6) & select_lines_in(c, true, c.num_commoned_lines);
    bases_in & qualifiers_in & data_in & selects_in & commoned_in
}

// Whether all that a build is handed keeps to the domain.
pub fn in_domain(b: BuildArgs) -> bool
    ensures { result ≡ build_in b }
{
    let d = b.description;
    let a = b.addr;
    let c = b.cs_data;
    let qualifiers = d.qualifiers;
    let gpios = a.gpios;
    let list_in = qualifiers_in(qualifiers, d.num_qualifiers, gpios, a.num_lines);
    description_in(d) & layout_in(a) & list_in & cs_data_in(c)
}
