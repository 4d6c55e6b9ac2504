// The image spans record: where in the lent bytes each chip's stand.
// docs/INTERFACE.md gives the place of each number.
#![tactic(auto)]

ghost use Rattle.std.specs.Prelude.{◌≡◌, ◌+◌, ◌≤◌};
ghost use Rattle.image_record.specs.ImageRecord.{spans_size, span_from, spans_at, spans_formed};

use build_args::images::ImageSpan;
use fields::{flag_formed, four_at};
use lists::array::entry;

// Bytes of a record.
const SIZE: usize = 48;

fn span_from(b: &[u8], p: usize) -> ImageSpan
    requires { p + 12 ≤ spans_size }
    ensures { result ≡ span_from b.now p }
{
    ImageSpan {
        present: entry(b, p) == 1,
        start: four_at(b, p + 4),
        length: four_at(b, p + 8),
    }
}

// Where each chip's bytes stand.
pub fn spans_at(b: &[u8]) -> [ImageSpan; 4]
    ensures { result ≡ spans_at b.now }
{
    [
        span_from(b, 0),
        span_from(b, 12),
        span_from(b, 24),
        span_from(b, 36),
    ]
}

// Whether the bytes are a record.
pub fn formed(b: &[u8]) -> bool
    ensures { result ≡ spans_formed b.now }
{
    let first = flag_formed(b, 0);
    let second = flag_formed(b, 12);
    let third = flag_formed(b, 24);
    let fourth = flag_formed(b, 36);
    (b.len() == SIZE) & (first & second & third & fourth)
}
