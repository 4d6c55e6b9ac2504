// Where the words of the chips stand in the lent bytes.
ghost use Rattle.std.specs.Prelude.{◌≡◌, ◌≤◌};
ghost use Rattle.build_wiring.specs.Counts.{word_count};
ghost use Rattle.build_wiring.specs.Design.Wiring.{source_of, sources_of};

use build_args::images::{ImageSpan, chip_size, span_at};
use picks::picked_by;
use slot::description::Description;
use table_fill::Source;

fn word_count(d: Description, k: u8) -> u32
    requires { 1 ≤ d.word_bytes }
    ensures { result ≡ word_count d k }
{
    chip_size(d, k) / (d.word_bytes as u32)
}

fn source(d: Description, spans: [ImageSpan; 4], picked: Option<u8>) -> Source
    requires { 1 ≤ d.word_bytes }
    ensures { result ≡ source_of d spans picked }
{
    match picked {
        None => Source {
            start: 0,
            count: 0,
            mirrored: false,
        },
        Some(k) => {
            let span = span_at(spans, k as usize);
            let count = word_count(d, k);
            Source {
                start: span.start,
                count: count,
                mirrored: u32::count_ones(count) == 1,
            }
        }
    }
}

// The source for each value of the bits that pick.
pub fn sources(d: Description, spans: [ImageSpan; 4]) -> [Source; 8]
    requires { 1 ≤ d.word_bytes }
    ensures { result ≡ sources_of d spans }
{
    let none = Source {
        start: 0,
        count: 0,
        mirrored: false,
    };
    let set_type = d.set_type;
    let mut out = [none; 8];
    for bits in 0u8..8 {
        out[bits as usize] = source(d, spans, picked_by(set_type, d.num_chips, bits));
    }
    out
}
