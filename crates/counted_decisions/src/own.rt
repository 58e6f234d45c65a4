//! What a workstation tells of its own, where all its events are counted.
ghost use Rattle.std.specs.Prelude.{◌≡◌, ℕ, Option, unwrap_or};
ghost use Rattle.model.specs.Types.{Events, Job};
ghost use Rattle.model.specs.Facts as facts;
ghost use Rattle.counted_decisions.specs.Sights.{CountsAllOf, seen_in};

use crate::sights::Sight;
use base_types::{JobNo, Moment, Obj, Ws};

/// The greatest clock of w, 0 without one.
pub(crate) fn now(sight: &Sight<'_>, w: Ws) -> Moment
    requires { CountsAllOf w sight.now }
    ensures { result ≡ facts.now (seen_in sight.now (Events w)) }
{
    sight.owners.kept().now(w)
}

/// Whether w is stopped.
pub(crate) fn is_stopped(sight: &Sight<'_>, w: Ws) -> bool
    requires { CountsAllOf w sight.now }
    ensures { result ≡ facts.is_stopped (seen_in sight.now (Events w)) }
{
    sight.owners.kept().is_stopped(w)
}

/// The fence of w.
pub(crate) fn fence(sight: &Sight<'_>, w: Ws) -> u8
    requires { CountsAllOf w sight.now }
    ensures { result ≡ facts.fence (seen_in sight.now (Events w)) }
{
    sight.owners.kept().fence(w)
}

/// How many launches may be open at w.
pub(crate) fn limit(sight: &Sight<'_>, w: Ws) -> u16
    requires { CountsAllOf w sight.now }
    ensures { result ≡ facts.limit (seen_in sight.now (Events w)) }
{
    sight.owners.kept().limit(w)
}

/// The total of a resource that was set last at w. None where it is as defined.
pub(crate) fn total_set(sight: &Sight<'_>, w: Ws, r: u16) -> Option<u16>
    requires { CountsAllOf w sight.now }
    ensures { (defined : ℕ) → unwrap_or result defined ≡ facts.total r defined (seen_in sight.now (Events w)) }
{
    sight.owners.kept().total_set(w, r)
}

/// Whether a job of w is due.
pub(crate) fn is_due(sight: &Sight<'_>, w: Ws, j: JobNo) -> bool
    requires { CountsAllOf w sight.now }
    ensures { result ≡ facts.is_due j (seen_in sight.now (Events w)) }
{
    sight.owners.kept().is_due_at(w, j)
}

/// Whether a job of w has an open launch.
pub(crate) fn is_open(sight: &Sight<'_>, w: Ws, j: JobNo) -> bool
    requires { CountsAllOf w sight.now }
    ensures { result ≡ facts.is_open j (seen_in sight.now (Events w)) }
{
    sight.owners.kept().is_open_at(w, j)
}

/// Whether w tells an object as cancelled.
pub(crate) fn is_cancelled(sight: &Sight<'_>, w: Ws, o: &Obj) -> bool
    requires { CountsAllOf w sight.now }
    ensures { result ≡ facts.is_cancelled o.now (seen_in sight.now (Events w)) }
{
    sight.owners.kept().is_cancelled_at(w, o)
}

/// The priority that w set last for a job. None where it is the document's.
pub(crate) fn priority_set(sight: &Sight<'_>, w: Ws, j: JobNo) -> Option<u8>
    requires { CountsAllOf w sight.now }
    ensures { (written : ℕ) →
        unwrap_or result written ≡ facts.priority (Job j) written (seen_in sight.now (Events w)) }
{
    let o = Obj::Job(j);
    sight.owners.kept().priority_set_at(w, &o)
}

/// Whether w told the file of a dependency.
pub(crate) fn is_fulfilled(sight: &Sight<'_>, w: Ws, o: &Obj, i: u16) -> bool
    requires { CountsAllOf w sight.now }
    ensures { result ≡ facts.is_fulfilled o.now i (seen_in sight.now (Events w)) }
{
    sight.owners.kept().is_fulfilled_at(w, o, i)
}

/// The last reply that w obeyed to an object's own prompt, if there is one.
pub(crate) fn own_reply(sight: &Sight<'_>, w: Ws, o: &Obj, i: u16) -> Option<bool>
    requires { CountsAllOf w sight.now }
    ensures { result ≡ facts.own_reply o.now i (seen_in sight.now (Events w)) }
{
    sight.owners.kept().own_reply_at(w, o, i)
}
