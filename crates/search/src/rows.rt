// The choices of a search, taken in rows: those of a row have the same bits from a split on, so that what these come to is found
// once a row, and what the bits below come to once a search.
ghost use Rattle.std.specs.Prelude.{◌≡◌, ℕ, suc, Bool, true, false, ◌+◌, ◌*◌, ◌^◌, ◌≤◌, ◌<◌, length, take};
ghost use Rattle.lists.specs.Tab.{tab};
ghost use Rattle.search.specs.Design.Rows.{RowIn};

use crate::row_bits;

// What takes the choices in turn, and finds what a choice comes to by two parts of its number: the bits below a split, which are
// low, and the others.
pub trait InRows {
    // What a part of a choice number comes to.
    type Part: Copy + Drop;
    // What is kept of the choices that are passed.
    type State: Copy + Drop;

    ghost formed: { Self → Type 0 };

    ghost part_of: { Self → Bool → ℕ → ℕ → Self.Part };

    ghost stepped: { Self → Self.State → ℕ → Self.Part → Self.Part → Self.State };

    // The state with the choices below a number passed.
    ghost after: { Self → ℕ → Self.State };

    fn part(&self, low: bool, split: u32, choice: u32) -> Self::Part
        requires { formed self.now }
        ensures { result ≡ part_of self.now low split choice };

    fn step(
        &self,
        before: Self::State,
        choice: u32,
        low: Self::Part,
        high: Self::Part,
    ) -> Self::State
        ensures { result ≡ stepped self.now before choice low high };

    // A choice's two parts come to what its whole number does.
    ghost passes: { (s : Self) (k row q : ℕ) → formed s → q < 2 ^ k →
        stepped s (after s (row * 2 ^ k + q)) (row * 2 ^ k + q) (part_of s true k q) (part_of s false k (row * 2 ^ k))
        ≡ after s (suc (row * 2 ^ k + q)) };
}

// What the bits below a split come to, into the table.
fn fill<C: InRows>(choices: &C, split: u32, lows: &mut [C::Part])
    requires formed { C.formed choices.now }
    requires room { (split ≤ 6) × (64 ≤ length lows.old) }
    ensures { take (2 ^ split) lows.new ≡ tab (2 ^ split) (λ q. C.part_of choices.now true split q) }
{
    let count = 1usize << split;
    for q in 0..count {
        lows[q] = choices.part(true, split, q as u32);
    }
}

// The choices of a row passed too.
fn row_passed<C: InRows>(
    choices: &C,
    before: C::State,
    lows: &[C::Part],
    split: u32,
    row: u32,
) -> C::State
    requires formed { C.formed choices.now }
    requires row { RowIn (C.part_of choices.now true split) lows.now split row }
    requires passed { before ≡ C.after choices.now (row * 2 ^ split) }
    ensures { result ≡ C.after choices.now ((row + 1) * 2 ^ split) }
{
    let first = row << split;
    let count = 1u32 << split;
    let high = choices.part(false, split, first);
    let mut state = before;
    for choice in first..first + count {
        state = choices.step(state, choice, lows[(choice - first) as usize], high);
    }
    state
}

// All choices of so many bits passed. The table has room for what the low bits of a row come to.
pub fn in_rows<C: InRows>(choices: &C, lows: &mut [C::Part], bits: u32, start: C::State) -> C::State
    requires formed { C.formed choices.now }
    requires room { (bits ≤ 16) × (64 ≤ length lows.old) }
    requires begins { start ≡ C.after choices.now 0 }
    ensures { result ≡ C.after choices.now (2 ^ bits) }
{
    let split = row_bits(bits);
    fill(choices, split, lows);
    let rows = 1u32 << (bits - split);
    let mut state = start;
    for row in 0..rows {
        state = row_passed(choices, state, lows, split, row);
    }
    state
}
