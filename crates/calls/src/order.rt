// A byte order by its number, for a caller that has no enums.
ghost use Rattle.std.specs.Prelude.{◌≡◌};
ghost use Rattle.calls.specs.Order.{order_formed, order_at};

use words::ByteOrder;

// Whether the number is an order's.
pub fn formed(n: u64) -> bool
    ensures { result ≡ order_formed n }
{
    n < 2
}

// The order that has the number.
pub fn order_at(n: u64) -> ByteOrder
    ensures { result ≡ order_at n }
{
    if n == 0 {
        return ByteOrder::LowFirst;
    }
    ByteOrder::HighFirst
}
