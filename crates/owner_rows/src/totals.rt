//! The totals of resources that were set.
ghost use Rattle.std.specs.Prelude.{◌≡◌, ◌+◌, ◌<◌, ◌^◌, ◌++◌, [], ◌∷◌, List, IfSome, IsSome, length};
ghost use Rattle.std.specs.Option.{option_or};
ghost use Rattle.model.specs.Types.{Entry as Taken};
ghost use Rattle.model.specs.History.{list_of};
ghost use Rattle.owner_rows.specs.Subjects.{key_in, resource_in};
ghost use Rattle.owner_rows.specs.Tables.{AreRows, has_row};
ghost use Rattle.owner_rows.specs.Totals.{IsTotalRow, total_said};

use crate::subjects::resource_key;
use crate::tables::Table;
use base_types::{Body, Cmd, Entry};

/// The total of the resource that the body sets.
fn total_of(r: u64, body: &Body) -> Option<u16>
    ensures { result ≡ total_said r body.now }
{
    match body {
        Body::Obeyed(_, _, Cmd::Total(other, units)) => {
            if r == u64::from(*other) {
                Some(*units)
            } else {
                None
            }
        }
        _ => None,
    }
}

/// What is set now, or else what was set before.
fn set_after(said: Option<u16>, before: Option<u16>) -> Option<u16>
    ensures { result ≡ option_or said before }
{
    said.or(before)
}

/// The totals after one more entry, for whose row the memory is there.
pub(crate) fn tell_total(totals: &mut Table<Option<u16>>, e: &Entry)
    requires { IfSome (key_in resource_in e.now) (λ k. IsSome (has_row totals.old k)) }
    ensures { (kept : List Taken) → length (list_of kept e.now.feed) + 1 < 2 ^ 32 → AreRows IsTotalRow kept totals.old
        → AreRows IsTotalRow (kept ++ e.now ∷ []) totals.new }
{
    if let Some((w, r)) = resource_key(e) {
        let before = totals.row(w, r);
        totals.put(w, r, set_after(total_of(r, &e.body), before));
    }
}
