//! The kinds of faults of definitions in a record.
ghost use Rattle.std.specs.Prelude.{◌≡◌};
ghost use Rattle.night_records.specs.Readings as spec;

use definition_texts::RefusalKind;
use record_faults::ScriptKind;

/// The kind of a fault of definitions as that of a record.
pub(crate) fn script_kind(kind: RefusalKind) -> ScriptKind
    ensures { result ≡ spec.script_kind kind }
{
    match kind {
        RefusalKind::BadChar => ScriptKind::BadChar,
        RefusalKind::OpenText => ScriptKind::OpenText,
        RefusalKind::TooLong => ScriptKind::TooLong,
        RefusalKind::Expected => ScriptKind::Expected,
        RefusalKind::LeftOut => ScriptKind::LeftOut,
        RefusalKind::Duplicate => ScriptKind::Duplicate,
        RefusalKind::UnknownName => ScriptKind::UnknownName,
        RefusalKind::OutOfRange => ScriptKind::OutOfRange,
        RefusalKind::ForeignResource => ScriptKind::ForeignResource,
        RefusalKind::FollowsCycle => ScriptKind::FollowsCycle,
        RefusalKind::Tree => ScriptKind::Tree,
    }
}
