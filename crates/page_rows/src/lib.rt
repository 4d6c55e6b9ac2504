// The rows of the pin page: a GPIO in two digits, and the text of a role.
#![tactic(auto)]

ghost use Rattle.std.specs.Prelude.{◌≡◌, ◌*◌, ◌≤◌, ◌<◌, length, get_or};
ghost use Rattle.lists.specs.Tab.{tab, joined};
ghost use Rattle.laid_bytes.specs.Laid.{laid};
ghost use Rattle.page_rows.specs.Rows.{no_role, role_text, row_text};
ghost use Rattle.page_rows.specs.Design.Room.{RolesIn};

use laid_bytes::put;
use lists::array::entry;

// The texts of the roles, by their numbers; the last is that of none.
const ROLE_TEXTS: [[u8; 5]; 56] = [
    *b"A0   ", *b"A1   ", *b"A2   ", *b"A3   ", *b"A4   ", *b"A5   ", *b"A6   ", *b"A7   ",
    *b"A8   ", *b"A9   ", *b"A10  ", *b"A11  ", *b"A12  ", *b"A13  ", *b"A14  ", *b"A15  ",
    *b"A16  ", *b"A17  ", *b"A18  ", *b"A19  ", *b"A20  ", *b"A21  ", *b"A22  ", *b"A23  ",
    *b"D0   ", *b"D1   ", *b"D2   ", *b"D3   ", *b"D4   ", *b"D5   ", *b"D6   ", *b"D7   ",
    *b"D8   ", *b"D9   ", *b"D10  ", *b"D11  ", *b"D12  ", *b"D13  ", *b"D14  ", *b"D15  ",
    *b"X1   ", *b"X2   ", *b"CE   ", *b"OE   ", *b"CS1  ", *b"CS2  ", *b"CS3  ", *b"CS4  ",
    *b"HALF ", *b"CE   ", *b"OE   ", *b"CS1  ", *b"CS2  ", *b"CS3  ", *b"CS4  ", *b"-    ",
];

// The table as it is lent to each row: a constant would be copied for each.
fn role_texts() -> [[u8; 5]; 56]
    ensures { result ≡ tab 56 role_text }
{
    ROLE_TEXTS
}

// Puts a GPIO's row into the page.
fn put_row(page: &mut [u8], texts: &[[u8; 5]; 56], gpio: u8, role: u8)
    requires { (gpio < 48) × (role ≤ no_role) × (432 ≤ length page.old) × (texts.now ≡ tab 56 role_text) }
    ensures { page.new ≡ laid page.old (9 * gpio) (row_text gpio role) }
{
    let at = 9 * gpio as usize;
    page[at] = b'0' + gpio / 10;
    page[at + 1] = b'0' + gpio % 10;
    page[at + 2] = b' ';
    put(page, at + 3, &texts[role as usize]);
    page[at + 8] = b'\n';
}

// Puts the row of each GPIO into the page.
pub fn put_rows(page: &mut [u8], roles: &[u8])
    requires { (432 ≤ length page.old) × RolesIn roles.now }
    ensures { page.new ≡ laid page.old 0 (joined 48 (λ g. row_text g (get_or roles.now g 0))) }
{
    let texts = role_texts();
    for gpio in 0u8..48 {
        put_row(page, &texts, gpio, entry(roles, gpio as usize));
    }
}
