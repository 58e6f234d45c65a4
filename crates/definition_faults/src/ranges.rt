//! Numbers and texts outside their ranges.
ghost use Rattle.std.specs.Prelude.{◌≡◌, ◌==◌, length};
ghost use Rattle.std.specs.List.{list_any};
ghost use Rattle.definition_faults.specs.Orders.{earliest};
ghost use Rattle.definition_faults.specs.Ranges as spec;

use crate::kinds::{Fault, Kind};
use base_types::Text;
use composer_parser::{Clause, Defs, Need};
use plan_times::east_of;

/// The fault of a TIMEZONE that is no offset.
#[tactic(auto, unfolding(crate::specs::Ranges::zone_faults))]
pub(crate) fn in_zone(defs: &Defs) -> Option<Fault>
    ensures { result ≡ earliest (spec.zone_faults defs.now) }
{
    match &defs.zone {
        Some(zone) if east_of(zone.item.as_str()).is_none() => Some(Fault {
            line: zone.line,
            kind: Kind::OutOfRange,
        }),
        _ => None,
    }
}

/// Whether a clause has a number outside its range, or an empty path.
pub(crate) fn is_out_of_range(clause: &Clause) -> bool
    ensures { result ≡ spec.is_out_of_range clause.now }
{
    match clause {
        Clause::At(_, days) => is_bad_offset(*days),
        Clause::Until(_, days, _) => is_bad_offset(*days),
        Clause::Deadline(_, days) => is_bad_offset(*days),
        Clause::Priority(number) => *number > 101,
        Clause::Limit(number) => *number > 1024,
        Clause::CarryForward => false,
        Clause::Follows(_) => false,
        Clause::Needs(needs) => need_too_many(needs.as_slice()),
        Clause::Prompt(_) => false,
        Clause::Opens(paths) => has_empty(paths.as_slice()),
    }
}

/// Whether days that are added are not from 1 to 99.
fn is_bad_offset(days: Option<u32>) -> bool
    ensures { result ≡ spec.is_bad_offset days }
{
    match days {
        Some(number) => number < 1 || 99 < number,
        None => false,
    }
}

fn need_too_many(needs: &[Need]) -> bool
    ensures { result ≡ list_any spec.needs_too_many needs.now }
{
    for need in needs {
        if needs_too_many(need) {
            return true;
        }
    }
    false
}

fn needs_too_many(need: &Need) -> bool
    ensures { result ≡ spec.needs_too_many need.now }
{
    match need.units {
        Some(units) => units > 1024,
        None => false,
    }
}

fn has_empty(paths: &[Text]) -> bool
    ensures { result ≡ list_any (λ path. length path == 0) paths.now }
{
    for path in paths {
        if path.len() == 0 {
            return true;
        }
    }
    false
}

/// How many dependencies a clause gives.
pub(crate) fn dependency_count(clause: &Clause) -> usize
    ensures { result ≡ spec.dependency_count clause.now }
{
    match clause {
        Clause::At(_, _) => 1,
        Clause::Until(_, _, _) => 1,
        Clause::Deadline(_, _) => 1,
        Clause::Priority(_) => 0,
        Clause::Limit(_) => 0,
        Clause::CarryForward => 0,
        Clause::Follows(preds) => preds.len(),
        Clause::Needs(needs) => needs.len(),
        Clause::Prompt(prompts) => prompts.len(),
        Clause::Opens(paths) => paths.len(),
    }
}
