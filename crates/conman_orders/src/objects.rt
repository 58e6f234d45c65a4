//! An object at the workstation that owns it.
ghost use Rattle.std.specs.Prelude.{◌≡◌, ℕ, None, Some, false, ◌||◌};
ghost use Rattle.std.specs.Option.{option_map_or};
ghost use Rattle.model.specs.Types.{Events, StreamDoc as Doc, Job};
ghost use Rattle.model.specs.Words.{first_of_these, some_is};
ghost use Rattle.model.specs.History.{view_of};
ghost use Rattle.model.specs.Catalogue as spec;
ghost use Rattle.model.specs.Catalogue.{owner, stream_of};
ghost use Rattle.model.specs.Facts as facts;
ghost use Rattle.model.specs.Facts.{is_complete};
ghost use Rattle.model.specs.Verdicts.{begun, over, object_reasons};

use base_types::{JobNo, Obj, Why, Ws};
use owner_fold::Owners;

/// Whether the stream that the object is, or belongs to, is a member of the plan.
#[tactic(auto, unfolding(model::specs::Catalogue::stream_of))]
fn is_planned(o: &Owners, object: &Obj) -> bool
    ensures { result ≡ option_map_or (λ (d : Doc). spec.is_member (view_of o.now) d.no)
        (stream_of (view_of o.now) object.now) false }
{
    match object {
        Obj::Job(j) => match o.stream_of(*j) {
            None => false,
            Some(s) => o.is_member(s),
        },
        Obj::Stream(s) => match o.stream(*s) {
            None => false,
            Some(doc) => o.is_member(doc.no),
        },
    }
}

/// Whether the object is this workstation's.
fn is_own(o: &Owners, me: Ws, object: &Obj) -> bool
    ensures { result ≡ some_is (owner (view_of o.now) object.now) me }
{
    match o.owner(*object) {
        None => false,
        Some(w) => w.0 == me.0,
    }
}

/// Why no command on the object is obeyed at this workstation.
pub fn object_reason(o: &Owners, me: Ws, object: &Obj) -> Option<Why>
    ensures reason { result ≡ first_of_these (object_reasons (view_of o.now) me object.now) }
    ensures own { result ≡ None → owner (view_of o.now) object.now ≡ Some me }
{
    if !is_planned(o, object) {
        return Some(Why::NotThere);
    }
    if !is_own(o, me, object) {
        return Some(Why::NotMine);
    }
    None
}

/// Whether the job has an open launch.
#[tactic(auto, unfolding(model::specs::Facts::is_open))]
pub fn is_open(o: &Owners, j: JobNo) -> bool
    ensures { (w : ℕ) → owner (view_of o.now) (Job j) ≡ Some w → result ≡ facts.is_open j (view_of o.now (Events w)) }
{
    o.open_launch(j).is_some()
}

/// Whether the job is due.
pub fn is_due(o: &Owners, j: JobNo) -> bool
    ensures { (w : ℕ) → owner (view_of o.now) (Job j) ≡ Some w → result ≡ facts.is_due j (view_of o.now (Events w)) }
{
    o.is_due(j)
}

/// Whether the job ended well.
pub fn is_good(o: &Owners, j: JobNo) -> bool
    ensures { (w : ℕ) → owner (view_of o.now) (Job j) ≡ Some w → result ≡ facts.is_good j (view_of o.now (Events w)) }
{
    o.is_good(j)
}

/// Whether the object itself is cancelled.
pub fn is_cancelled(o: &Owners, object: &Obj) -> bool
    ensures { (w : ℕ) → owner (view_of o.now) object.now ≡ Some w →
        result ≡ facts.is_cancelled object.now (view_of o.now (Events w)) }
{
    o.is_cancelled(*object)
}

/// Whether the object has begun.
pub fn has_begun(o: &Owners, object: &Obj) -> bool
    ensures { (w : ℕ) → owner (view_of o.now) object.now ≡ Some w →
        result ≡ begun (view_of o.now (Events w)) object.now }
{
    match object {
        Obj::Job(j) => is_open(o, *j),
        Obj::Stream(s) => o.is_released(*s) && !o.is_ended(*s),
    }
}

/// Whether the object is over, or cancelled.
pub fn is_closed(o: &Owners, object: &Obj) -> bool
    ensures { (w : ℕ) → owner (view_of o.now) object.now ≡ Some w →
        result ≡ (over (view_of o.now (Events w)) object.now
        || facts.is_cancelled object.now (view_of o.now (Events w))) }
{
    is_over(o, object) || is_cancelled(o, object)
}

/// Whether the object is over.
fn is_over(o: &Owners, object: &Obj) -> bool
    ensures { (w : ℕ) → owner (view_of o.now) object.now ≡ Some w →
        result ≡ over (view_of o.now (Events w)) object.now }
{
    match object {
        Obj::Job(j) => !is_due(o, *j) && !is_open(o, *j),
        Obj::Stream(s) => o.is_ended(*s),
    }
}

/// Whether the object is a job that ended well, or a stream that has ended.
pub fn is_complete(o: &Owners, object: &Obj) -> bool
    ensures { (w : ℕ) → owner (view_of o.now) object.now ≡ Some w →
        result ≡ is_complete (view_of o.now (Events w)) object.now }
{
    match object {
        Obj::Job(j) => is_good(o, *j),
        Obj::Stream(s) => o.is_ended(*s),
    }
}
