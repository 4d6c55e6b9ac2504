// Read-back, from the record of a caller that has no structs to its answer as one number.
ghost use Rattle.std.specs.Prelude.{◌≡◌};
ghost use Rattle.calls.specs.Order.{order_at};
ghost use Rattle.calls.specs.Calls.{read_returned, read_result, read_formed, read_from};

use calls::order;
use calls::order::order_at;
use calls::refused::result;
use stored_record::stored_at;
use unscramble::unscramble_slot;

// Whether the bytes are a stored slot's record, and the number is a byte order's.
pub fn formed(slot: &[u8], order: u64) -> bool
    ensures { result ≡ read_formed slot.now order }
{
    stored_record::formed(slot) & order::formed(order)
}

// Reads back the slot that the record gives, and answers as read-back did.
pub fn hand_over(order: u64, slot: &[u8], stored: &[u8], output: &mut [u8], marks: &mut [u8]) -> u64
    ensures { read_returned result output.new marks.new
        ≡ read_result (read_from (order_at order) slot.now stored.now output.old marks.old) }
{
    result(unscramble_slot(order_at(order), stored_at(slot), stored, output, marks))
}
