//! Whether two lists of dependencies of drafts are one.
ghost use Rattle.std.specs.Prelude.{◌≡◌};
ghost use Rattle.std.specs.Bool.{Decides};

use crate::deps::is_same_dep;
use crate::texts::{is_same_text, is_same_text_or_none};
use base_types::DraftDep;

/// Whether the two dependencies of drafts are one.
fn is_same_draft_dep(a: &DraftDep, b: &DraftDep) -> bool
    ensures { Decides result (a.now ≡ b.now) }
{
    match a {
        DraftDep::Follows(ws, name, job) => match b {
            DraftDep::Follows(v, other, of) => {
                ws.0 == v.0 && is_same_text(name, other) && is_same_text_or_none(job, of)
            }
            DraftDep::Plain(_) => false,
        },
        DraftDep::Plain(dep) => match b {
            DraftDep::Follows(_, _, _) => false,
            DraftDep::Plain(other) => is_same_dep(dep, other),
        },
    }
}

/// Whether the two lists are one.
pub(crate) fn are_same_draft_deps(a: &[DraftDep], b: &[DraftDep]) -> bool
    ensures { Decides result (a.now ≡ b.now) }
{
    if a.len() != b.len() {
        return false;
    }
    for (i, dep) in a.iter().enumerate() {
        if !is_same_draft_dep(dep, &b[i]) {
            return false;
        }
    }
    true
}
