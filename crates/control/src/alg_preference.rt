// The order among the select algorithms: the simplest that serves comes first.
ghost use Rattle.std.specs.Prelude.{◌≡◌};
ghost use Rattle.control.specs.AlgPreference.{preference_of};

// The preference of a select algorithm, lower being better: it decides before the span does.
pub fn cs_alg_preference(has_qualifiers: bool, has_ignore_index: bool) -> u8
    ensures { result ≡ preference_of has_qualifiers has_ignore_index }
{
    if has_qualifiers {
        return 2;
    }
    if has_ignore_index {
        return 1;
    }
    0
}
