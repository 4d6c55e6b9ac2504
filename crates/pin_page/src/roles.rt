// The role of each GPIO. Roles are numbers in the order in which they are shown, so that the first of several is the lowest.
ghost use Rattle.std.specs.Prelude.{◌≡◌, true, ◌+◌, ◌≤◌, get_or};
ghost use Rattle.lists.specs.Tab.{tab};
ghost use Rattle.cs_roles.specs.Roles.{half_role};
ghost use Rattle.build_args.specs.Domain.{select_lines_in, cs_data_in};
ghost use Rattle.pin_page.specs.Roles.{page_line, excess_lines, x_line, line_role, select_lines, addr_page_lines, cs_data_page_lines, role_of};
ghost use Rattle.pin_page.specs.Design.Marks.{marked, marked_all};

use addr_layout::layout::AddrLayout;
use build_args::in_domain::line_of;
use cs_data_layout::layout::CsDataLayout;
use cs_roles::{HALF_ROLE, X1_ROLE, X2_ROLE};
use lists::array::entry;

// The numbers of the roles: where those of a class begin that are counted on from there, and single ones.
const FIRST_ADDRESS: u8 = 0;

const FIRST_DATA: u8 = 24;

const X1: u8 = 40;

const X2: u8 = 41;

const FIRST_SELECT: u8 = 42;

const HALF: u8 = 48;

const FIRST_COMMONED: u8 = 49;

const NO_ROLE: u8 = 55;

// Gives a GPIO a role, unless it has one that comes before.
fn mark(roles: &mut [u8], gpio: u8, role: u8)
    ensures { roles.new ≡ marked roles.old (page_line role gpio) }
{
    let g = gpio as usize;
    if g < roles.len() {
        if role < roles[g] {
            roles[g] = role;
        }
    }
}

// Gives the first n GPIOs of a list the roles of lines that are numbered, from line 0's on.
fn mark_numbered(roles: &mut [u8], gpios: &[u8], n: u8, first: u8)
    requires { first + n ≤ 255 }
    ensures { roles.new ≡ marked_all roles.old (tab n (λ k. page_line (first + k) (get_or gpios.now k 0))) }
{
    for k in 0..n {
        mark(roles, entry(gpios, k as usize), first + k);
    }
}

// Gives the excess lines' GPIOs, which stand behind those of the lines in use, the role of a half select.
fn mark_excess(roles: &mut [u8], a: AddrLayout)
    ensures { roles.new ≡ marked_all roles.old (excess_lines a) }
{
    let gpios = a.gpios;
    let first = a.num_lines as usize;
    let n = a.num_excess as usize;
    for k in 0..n {
        mark(roles, entry(&gpios, first + k), HALF);
    }
}

// Gives an X pin's GPIO its role.
fn mark_x(roles: &mut [u8], x: Option<u8>, role: u8)
    ensures { roles.new ≡ marked_all roles.old (x_line role x) }
{
    if let Some(gpio) = x {
        mark(roles, gpio, role);
    }
}

// The role of a select line or of a commoned one: X pins and half selects are the same in both lists.
fn line_role(commoned: bool, role: u8) -> u8
    requires { role ≤ half_role }
    ensures { result ≡ line_role commoned role }
{
    if role == X1_ROLE {
        return X1;
    }
    if role == X2_ROLE {
        return X2;
    }
    if role == HALF_ROLE {
        return HALF;
    }
    if commoned {
        return FIRST_COMMONED + role;
    }
    FIRST_SELECT + role
}

// Gives the GPIOs of the first n select lines, or of the commoned ones, their roles.
fn mark_lines(roles: &mut [u8], c: CsDataLayout, commoned: bool, n: u8)
    requires { select_lines_in c commoned n ≡ true }
    ensures { roles.new ≡ marked_all roles.old (select_lines c commoned n) }
{
    let count = n as usize;
    for k in 0..count {
        let line = line_of(c, commoned, k);
        mark(roles, line.gpio, line_role(commoned, line.role));
    }
}

// Marks what the address layout gives.
fn mark_addr(roles: &mut [u8], a: AddrLayout)
    ensures { roles.new ≡ marked_all roles.old (addr_page_lines a) }
{
    let gpios = a.gpios;
    let x1 = a.x1_gpio;
    let x2 = a.x2_gpio;
    mark_numbered(roles, &gpios, a.num_lines, FIRST_ADDRESS);
    mark_x(roles, x1, X1);
    mark_x(roles, x2, X2);
    mark_excess(roles, a);
}

// Marks what the select and data layout gives.
fn mark_cs_data(roles: &mut [u8], c: CsDataLayout)
    requires { cs_data_in c ≡ true }
    ensures { roles.new ≡ marked_all roles.old (cs_data_page_lines c) }
{
    let gpios = c.data_pin_gpios;
    mark_numbered(roles, &gpios, c.num_data_pins, FIRST_DATA);
    mark_lines(roles, c, false, c.num_select_lines);
    mark_lines(roles, c, true, c.num_commoned_lines);
}

// The first role of each GPIO.
pub fn page_roles(a: AddrLayout, c: CsDataLayout) -> [u8; 48]
    requires { cs_data_in c ≡ true }
    ensures { result ≡ tab 48 (role_of a c) }
{
    let mut roles = [NO_ROLE; 48];
    mark_addr(&mut roles, a);
    mark_cs_data(&mut roles, c);
    roles
}
