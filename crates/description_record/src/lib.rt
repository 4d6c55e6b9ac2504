// The description record: docs/INTERFACE.md gives the place of each number.
#![tactic(auto)]

mod shape; // which records are refused
mod parts; // board, chips and settings at their places

ghost use Rattle.std.specs.Prelude.{◌≡◌, true};
ghost use Rattle.fields.specs.Fields.{bytes_at};
ghost use Rattle.description_record.specs.Record.{record_size, described, well_formed, decoded_of};

use crate::shape::SIZE;
use fields::fill;
use refusal::Refusal;
use slot::description::Description;

// The answer, and what the record describes; of a refused record, what is left of it to read. No Result, since `decode` promises that
// too (`decoded_of`).
#[derive(Clone, Copy)]
pub struct Decoded {
    pub answer: Result<(), Refusal>,
    pub description: Description,
}

// Whether the bytes are a record.
pub fn formed(b: &[u8]) -> bool
    ensures { result ≡ well_formed b.now }
{
    shape::well_formed(b)
}

// What a record describes.
pub fn description_at(b: &[u8]) -> Description
    requires { well_formed b.now ≡ true }
    ensures { result ≡ described b.now }
{
    parts::description(<&[u8; SIZE]>::try_from(b).unwrap())
}

// As many bytes as a record has: 0 past the end.
fn padded(b: &[u8]) -> [u8; SIZE]
    ensures { result ≡ bytes_at b.now 0 record_size }
{
    let mut out = [0u8; SIZE];
    fill(b, 0, &mut out);
    out
}

// The description that a record's bytes give, or refusal 1.
pub fn decode(b: &[u8]) -> Decoded
    ensures { result ≡ decoded_of b.now }
{
    if formed(b) {
        let description = description_at(b);
        return Decoded {
            answer: Ok(()),
            description,
        };
    }
    let record = padded(b);
    let description = parts::description(&record);
    Decoded {
        answer: Err(Refusal::OutOfDomain),
        description,
    }
}
