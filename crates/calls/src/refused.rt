// An answer as one number, for a caller that has no enums.
ghost use Rattle.std.specs.Prelude.{◌≡◌};
ghost use Rattle.calls.specs.Packed.{packed, result_of, write_result_of};

use refusal::Refusal;

// The number stands above the 48 bits of the place: no call has a place that needs more.
pub fn packed(why: Refusal) -> u64
    ensures { result ≡ packed why }
{
    why.number() as u64 * 0x1_0000_0000_0000 + why.place() % 0x1_0000_0000_0000
}

// 0 where the call is done.
pub fn result(a: Result<(), Refusal>) -> u64
    ensures { result ≡ result_of a }
{
    match a {
        Ok(()) => 0,
        Err(why) => packed(why),
    }
}

// The length where a text or a file is written.
pub fn write_result(a: Result<usize, Refusal>) -> u64
    ensures { result ≡ write_result_of a }
{
    match a {
        Ok(n) => n as u64 % 0x1_0000_0000_0000,
        Err(why) => packed(why),
    }
}
