//! Workstations that are written.
ghost use Rattle.std.specs.Prelude.{◌≡◌};
ghost use Rattle.std.specs.Option.{option_copied};
ghost use Rattle.definition_faults.specs.Unknown as spec;

use base_types::Text;
use definition_names::Names;

/// Whether a workstation is written that is not defined.
pub(crate) fn is_unknown_ws<'a>(names: &Names<'a>, ws: &'a Option<Text>) -> bool
    ensures { result ≡ spec.is_unknown_ws names.now ws.now }
{
    match ws {
        Some(name) => names.cpu(name).is_none(),
        None => false,
    }
}

/// Whether a calendar is not defined. `HOLIDAYS` need not be.
pub(crate) fn is_unknown_calendar<'a>(names: &Names<'a>, name: &'a Text) -> bool
    ensures { result ≡ spec.is_unknown_calendar names.now name.now }
{
    names.calendar(name).is_none() && name.as_str() != "HOLIDAYS"
}

/// The workstation that is written, or that of the object.
pub(crate) fn ws_or<'a>(ws: &'a Option<Text>, own: Option<&'a Text>) -> Option<&'a Text>
    ensures { option_copied result ≡ spec.ws_or ws.now (option_copied own.entry) }
{
    match ws {
        Some(name) => Some(name),
        None => own,
    }
}
