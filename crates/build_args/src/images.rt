// The bytes that are lent for the chips: one slice, and for each chip where its bytes stand in it and how many it should have.
ghost use Rattle.std.specs.Prelude.{◌≡◌, length, get_or};
ghost use Rattle.slot.specs.Description.{no_chip};
ghost use Rattle.build_args.specs.Images.{chip_bytes, chip_span};

use slot::description::Description;

// Where a chip's bytes stand in the lent ones; those past the end are not there.
#[derive(Clone, Copy)]
pub struct ImageSpan {
    // Whether the chip has bytes at all. A flag and no Option: a spans record has start and length beside it whether or not it is set,
    // and `spans_at` of image_record promises all three of any bytes.
    pub present: bool,
    pub start: u32,
    pub length: u32,
}

// The span of chip k.
pub fn span_at(spans: [ImageSpan; 4], k: usize) -> ImageSpan
    ensures { result ≡ chip_span spans k }
{
    let none = ImageSpan {
        present: false,
        start: 0,
        length: 0,
    };
    spans.get(k).copied().unwrap_or(none)
}

// How many bytes of a span the slice has.
pub fn bytes_lent(images: &[u8], span: ImageSpan) -> usize
    ensures { result ≡ length (chip_bytes images.now span) }
{
    let past_start = images.len().saturating_sub(span.start as usize);
    past_start.min(span.length as usize)
}

// A chip's size in bytes; 0 past the last.
pub fn chip_size(d: Description, k: u8) -> u32
    ensures { result ≡ (get_or d.chips k no_chip).size }
{
    match d.chips.get(k as usize) {
        Some(chip) => chip.size,
        None => 0,
    }
}
