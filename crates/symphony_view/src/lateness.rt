//! What is late, and which plans tell of it.
ghost use Rattle.std.specs.Prelude.{◌≡◌, Some};
ghost use Rattle.std.specs.List.{list_any};
ghost use Rattle.model.specs.Types.{Job, JobDoc as Planned};
ghost use Rattle.model.specs.History.{view_of};
ghost use Rattle.model.specs.Catalogue.{owner};
ghost use Rattle.model.specs.States as states;
ghost use Rattle.symphony_view.specs.Symphonies as spec;
ghost use Rattle.symphony_view.specs.Words as words;

use base_types::{JobDoc, Obj, StreamDoc, StreamNo, Ws};
use entry_codec::has_deadline;
use owner_fold::Owners;

/// Whether its owner recorded the object as late.
#[tactic(auto, unfolding(model::specs::States::is_shown_late))]
pub(crate) fn is_shown_late(o: &Owners, object: Obj) -> bool
    ensures { result ≡ states.is_shown_late (view_of o.now) object }
{
    o.is_ever_late(object)
}

/// Whether the workstation of an object recorded it as late.
#[tactic(auto, unfolding(model::specs::States::is_shown_late))]
pub(crate) fn is_shown_late_at(o: &Owners, w: Ws, object: &Obj) -> bool
    requires { owner (view_of o.now) object.now ≡ Some w }
    ensures { result ≡ states.is_shown_late (view_of o.now) object.now }
{
    o.kept().is_ever_late_at(w, object)
}

/// What follows in the line of an object that is late.
pub(crate) fn late_word(is_late: bool) -> &'static str
    ensures { result.now ≡ words.late_word is_late }
{
    if is_late { " late" } else { "" }
}

/// Whether Symphony has version 2: a member has a DEADLINE, or it or one of its jobs is late.
#[tactic(auto, unfolding(crate::specs::Symphonies::is_second))]
pub(crate) fn is_second(o: &Owners) -> bool
    ensures { result ≡ spec.is_second (view_of o.now) }
{
    for s in o.members().as_slice() {
        if is_timed_member(o, *s) {
            return true;
        }
    }
    false
}

#[tactic(auto, unfolding(crate::specs::Symphonies::is_timed_member))]
fn is_timed_member(o: &Owners, s: StreamNo) -> bool
    ensures { result ≡ spec.is_timed_member (view_of o.now) s }
{
    match o.stream(s) {
        None => false,
        Some(doc) => is_timed(o, doc),
    }
}

#[tactic(auto, unfolding(crate::specs::Symphonies::is_timed))]
fn is_timed(o: &Owners, doc: &StreamDoc) -> bool
    ensures { result ≡ spec.is_timed (view_of o.now) doc.now }
{
    has_deadline(doc)
        || is_shown_late(o, Obj::Stream(doc.no))
        || has_late_job(o, doc.jobs.as_slice())
}

fn has_late_job(o: &Owners, jobs: &[JobDoc]) -> bool
    ensures { result ≡ list_any (λ (j : Planned). states.is_shown_late (view_of o.now) (Job j.no)) jobs.now }
{
    for job in jobs {
        if is_shown_late(o, Obj::Job(job.no)) {
            return true;
        }
    }
    false
}
