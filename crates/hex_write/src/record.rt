// A record's text: its bytes as digits, with their checksum.
ghost use Rattle.std.specs.Prelude.{◌≡◌, ◌+◌, ◌*◌, ◌<◌, ◌≤◌, length};
ghost use Rattle.laid_bytes.specs.Laid.{laid};
ghost use Rattle.hex_write.specs.Text.{digit_for, hex_byte, hex_bytes, record_text};

use hex_base::checksum;

// The digit of a value.
fn digit_for(v: u8) -> u8
    requires { v < 16 }
    ensures { result ≡ digit_for v }
{
    if v < 10 {
        return v + 48;
    }
    v + 55
}

// Writes a byte's two digits.
fn put_byte(text: &mut [u8], at: usize, b: u8)
    requires { at + 2 ≤ length text.old }
    ensures { text.new ≡ laid text.old at (hex_byte b) }
{
    text[at] = digit_for(b / 16);
    text[at + 1] = digit_for(b % 16);
}

// Writes the digits of bytes.
fn put_bytes(text: &mut [u8], at: usize, bytes: &[u8])
    requires { at + 2 * length bytes.now ≤ length text.old }
    ensures { text.new ≡ laid text.old at (hex_bytes bytes.now) }
{
    for k in 0..bytes.len() {
        put_byte(text, at + 2 * k, bytes[k]);
    }
}

// Writes a record of these bytes, and says where it ends.
pub fn put_record(text: &mut [u8], at: usize, bytes: &[u8]) -> usize
    requires { at + 2 * length bytes.now + 4 ≤ length text.old }
    ensures value { result ≡ at + 2 * length bytes.now + 4 }
    ensures text_after { text.new ≡ laid text.old at (record_text bytes.now) }
{
    text[at] = 58;
    put_bytes(text, at + 1, bytes);
    let end = at + 1 + 2 * bytes.len();
    put_byte(text, end, checksum(bytes));
    text[end + 2] = 10;
    end + 3
}
