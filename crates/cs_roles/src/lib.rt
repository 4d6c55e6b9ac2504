// What each select line of the select and data search is for, in the order of their pins.
#![tactic(auto)]

ghost use Rattle.std.specs.Prelude.{◌≡◌, [], ◌∷◌, ◌++◌, ◌+◌, ◌≤◌, ◌<◌};
ghost use Rattle.slot.specs.Description.{chip0};
ghost use Rattle.cs_roles.specs.Roles.{roles_of, if_active_kind, active_kinds, x_roles, select_roles};

use cs_pins::line_active;
use domain::chip::kind_at;
use slot::description::Description;

// The role of a control line is its kind; those of X1, of X2 and of an excess line, half a select, go on from there.
pub const X1_ROLE: u8 = 6;

pub const X2_ROLE: u8 = 7;

pub const HALF_ROLE: u8 = 8;

// The roles of the select lines.
#[derive(Clone, Copy)]
pub struct Roles {
    pub roles: [u8; 8],
    pub count: usize,
}

fn push_role(r: Roles, role: u8) -> Roles
    requires { r.count < 8 }
    ensures { (roles_of result ≡ roles_of r ++ (role ∷ [])) × (result.count ≡ r.count + 1) }
{
    let mut roles = r.roles;
    let k = r.count;
    roles[k] = role;
    Roles {
        roles,
        count: k + 1,
    }
}

fn no_roles() -> Roles
    ensures { (roles_of result ≡ []) × (result.count ≡ 0) }
{
    Roles {
        roles: [0u8; 8],
        count: 0,
    }
}

// The roles, with that of the `k`-th control line where it selects the chip.
fn push_kind(d: Description, r: Roles, k: usize) -> Roles
    requires { r.count < 8 }
    ensures { (roles_of result ≡ roles_of r ++ if_active_kind d k) × (result.count ≤ r.count + 1) }
{
    if line_active(d, k) {
        let chip = d.chip0();
        return push_role(r, kind_at(chip.control, k));
    }
    r
}

fn active_roles(d: Description) -> Roles
    requires { (chip0 d).control.count ≤ 8 }
    ensures { (roles_of result ≡ active_kinds d (chip0 d).control.count) × (result.count ≤ 8) }
{
    let chip = d.chip0();
    let lines = chip.control;
    let count = lines.count as usize;
    let mut r = no_roles();
    for k in 0..count {
        r = push_kind(d, r, k);
    }
    r
}

fn x_roles(r: Roles, one: bool, both: bool) -> Roles
    requires { r.count ≤ 6 }
    ensures { (roles_of result ≡ roles_of r ++ x_roles one both) × (result.count ≤ r.count + 2) }
{
    if !one {
        return r;
    }
    let with_x1 = push_role(r, X1_ROLE);
    if !both {
        return with_x1;
    }
    push_role(with_x1, X2_ROLE)
}

// The roles of all select lines but the excess ones.
pub fn select_roles(d: Description) -> Roles
    requires { (chip0 d).control.count ≤ 8 }
    ensures { (roles_of result ≡ select_roles d) × (result.count ≤ 8) }
{
    let set_type = d.set_type;
    let multi = d.multi;
    if set_type.is_multi() {
        let select = push_role(no_roles(), multi.select);
        return x_roles(select, 2 <= d.num_chips, 3 <= d.num_chips);
    }
    active_roles(d)
}
