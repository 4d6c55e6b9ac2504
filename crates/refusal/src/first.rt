// The answer to tests that go in an order: the first that fails.
ghost use Rattle.std.specs.Prelude.{◌≡◌};
ghost use Rattle.refusal.specs.First.{answered};

use crate::Refusal;

// The answer where nothing is left to test.
pub fn answered(fault: Option<Refusal>) -> Result<(), Refusal>
    ensures { result ≡ answered fault }
{
    match fault {
        None => Ok(()),
        Some(why) => Err(why),
    }
}
