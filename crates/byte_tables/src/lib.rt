// What each value of a byte comes to, by positions. The tables are made by doubling: what one bit more comes to is found once, and
// joined to all that stands already.
#![tactic(auto)]

ghost use Rattle.std.specs.Prelude.{◌≡◌, ℕ, ◌+◌, ◌*◌, ◌^◌, ◌<◌, ◌≤◌, length, get_or};
ghost use Rattle.lists.specs.Tab.{tab};
ghost use Rattle.bits.specs.Bits.{gather, scatter};
ghost use Rattle.byte_tables.specs.Design.Doubled.{Doubled, Joined};

use bits::{gather, scatter};

// As many entries again, each with the bits of `one`.
fn double(out: &mut [u32], size: usize, one: u32)
    requires { size + size ≤ length out.old }
    ensures { Doubled size one out.old out.new }
{
    for q in 0..size {
        out[size + q] = out[q] | one;
    }
}

// What each byte comes to, by what each of its bits does.
fn table_of<F: Fn(u32) -> u32>(of_bit: F) -> [u32; 256]
    requires { F.IsAlwaysCallable of_bit }
    ensures { (f : ℕ → ℕ) → Joined f → ((k r : ℕ) → k < 8 → F.post of_bit (2 ^ k) r → r ≡ f (2 ^ k)) → result ≡ tab 256 f }
{
    let mut out = [0u32; 256];
    for k in 0u32..8 {
        double(&mut out, 1usize << k, of_bit(1u32 << k));
    }
    out
}

// What each byte comes to, gathered, where it stands so many bits up.
pub fn gather_table(positions: &[u8], n: usize, up: u32) -> [u32; 256]
    requires { (n ≤ 32) × (up ≤ 8) }
    ensures { result ≡ tab 256 (λ q. gather n (λ k. get_or positions.now k 0) (q * 2 ^ up)) }
{
    table_of(|bit| gather(positions, n, bit << up))
}

// What each byte comes to, scattered in a word of m bits, where it stands so many bits up.
pub fn scatter_table(positions: &[u8], n: usize, m: u32, up: u32) -> [u32; 256]
    requires { (n ≤ 31) × (m ≤ 32) × (up ≤ 8) }
    ensures { result ≡ tab 256 (λ q. scatter n (λ k. get_or positions.now k 0) m (q * 2 ^ up)) }
{
    table_of(|bit| scatter(positions, n, m, bit << up))
}
