// Bytes laid over those of a lent buffer: how a text or a file is written piece by piece.
#![tactic(auto)]

ghost use Rattle.std.specs.Prelude.{◌≡◌, ◌+◌, ◌++◌, ◌≤◌, length, drop};
ghost use Rattle.laid_bytes.specs.Laid.{laid};

// Lays bytes over a buffer's from a place on, and says where they end.
#[tactic(auto, using(crate::proofs::Laids::laid_part))]
pub fn put(buffer: &mut [u8], at: usize, bytes: &[u8]) -> usize
    requires { at + length bytes.now ≤ length buffer.old }
    ensures value { result ≡ at + length bytes.now }
    ensures buffer_after { buffer.new ≡ laid buffer.old at bytes.now }
{
    let end = at + bytes.len();
    buffer[at..end].copy_from_slice(bytes);
    end
}

// Lays bytes over the front of a buffer: `put` at 0, promised by what stands behind them, as who copies a whole file reads it.
pub fn copy(bytes: &[u8], buffer: &mut [u8])
    requires { length bytes.now ≤ length buffer.old }
    ensures len { length buffer.new ≡ length buffer.old }
    ensures buffer_after { buffer.new ≡ bytes.now ++ drop (length bytes.now) buffer.old }
{
    buffer[..bytes.len()].copy_from_slice(bytes);
}
