// The setting of a control line, as a chip's select settings give it. A line that nobody set is active low; one that is
// set to be ignored is not.
ghost use Rattle.std.specs.Prelude.{◌≡◌};
ghost use Rattle.control.specs.CsConfig.{given_or, is_ignore, chip_select_logic, explicit_logic, logic_of, ignores};

use slot::description::{CsConfig, CsLogic};

fn given_or_low(s: Option<CsLogic>) -> CsLogic
    ensures { result ≡ given_or s }
{
    match s {
        None => CsLogic::ActiveLow,
        Some(logic) => logic,
    }
}

// Whether a setting is to be ignored.
pub fn is_ignore(logic: CsLogic) -> bool
    ensures { result ≡ is_ignore logic }
{
    match logic {
        CsLogic::ActiveLow => false,
        CsLogic::ActiveHigh => false,
        CsLogic::Ignore => true,
    }
}

fn chip_select_logic(
    cs1: CsLogic,
    cs2: Option<CsLogic>,
    cs3: Option<CsLogic>,
    cs4: Option<CsLogic>,
    kind: u8,
) -> CsLogic
    ensures { result ≡ chip_select_logic cs1 cs2 cs3 cs4 kind }
{
    match kind {
        2 => cs1,
        3 => given_or_low(cs2),
        4 => given_or_low(cs3),
        5 => given_or_low(cs4),
        _ => CsLogic::ActiveLow,
    }
}

// cs1 reads the line that selects the chip: ce, or oe where ce is ignored. cs2 reads the other.
fn explicit_logic(ce: CsLogic, oe: CsLogic, kind: u8) -> CsLogic
    ensures { result ≡ explicit_logic ce oe kind }
{
    let swapped = is_ignore(ce);
    match kind {
        0 => ce,
        1 => oe,
        2 => if swapped { oe } else { ce },
        3 => if swapped { ce } else { oe },
        _ => CsLogic::ActiveLow,
    }
}

// How the line of a kind is read under a chip's settings.
pub fn control_line_logic(kind: u8, config: CsConfig) -> CsLogic
    ensures { result ≡ logic_of config kind }
{
    match config {
        CsConfig::ChipSelect { cs1, cs2, cs3, cs4 } => chip_select_logic(cs1, cs2, cs3, cs4, kind),
        CsConfig::CeOe => CsLogic::ActiveLow,
        CsConfig::CeOeExplicit { ce, oe } => explicit_logic(ce, oe, kind),
    }
}

// Whether the line of a kind is ignored, its setting read as `control_line_logic` reads it.
pub fn line_ignored(kind: u8, config: CsConfig) -> bool
    ensures { result ≡ ignores config kind }
{
    is_ignore(control_line_logic(kind, config))
}
