// The round trip, from the records of a caller that has no structs to its answer as one number.
ghost use Rattle.std.specs.Prelude.{◌≡◌};
ghost use Rattle.calls.specs.Order.{order_at};
ghost use Rattle.calls.specs.Calls.{read_returned};
ghost use Rattle.onerom.specs.Trip.{trip_formed, trip_returned, trip_result, trip_from, TripDemanded};

use calls::order;
use calls::order::order_at;
use calls::refused::result;
use four_calls::round_trip;
use slot::description::Description;

// Whether the bytes are the chips' spans, and the number is a byte order's.
pub fn formed(spans: &[u8], order: u64) -> bool
    ensures { result ≡ trip_formed spans.now order }
{
    image_record::formed(spans) & order::formed(order)
}

// Makes the round trip of the chips that the spans give, and answers as it did.
pub fn hand_over(
    order: u64,
    d: Description,
    spans: &[u8],
    images: &[u8],
    table: &mut [u8],
    output: &mut [u8],
    marks: &mut [u8],
) -> u64
    ensures marks_after { trip_returned result table.new output.new marks.new
        ≡ trip_result (trip_from (order_at order) d spans.now images.now table.old output.old marks.old) }
    ensures trip_demanded { TripDemanded (order_at order) d spans.now images.now table.old output.old
        marks.old (read_returned result output.new marks.new) }
{
    result(round_trip(
        order_at(order),
        d,
        images,
        image_record::spans_at(spans),
        table,
        output,
        marks,
    ))
}
