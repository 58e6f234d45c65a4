//! Why a command on a job or a stream is declined.
ghost use Rattle.std.specs.Prelude.{◌≡◌, ◌∷◌, ◌||◌, ℕ, [], Some, length, nat_le, option_and_then};
ghost use Rattle.std.specs.List.{list_any};
ghost use Rattle.std.specs.Option.{option_copied};
ghost use Rattle.model.specs.Types.{AddDep, AltPri, Cancel, Confirm, DelDep, Events, Kill, Net as Nets, ReplyOwn};
ghost use Rattle.model.specs.Types.{Release, Rerun, StreamLimit};
ghost use Rattle.model.specs.Words.{first_of_these};
ghost use Rattle.model.specs.History.{view_of};
ghost use Rattle.model.specs.Catalogue.{owner};
ghost use Rattle.model.specs.Facts.{is_cancelled};
ghost use Rattle.model.specs.Equalities.{dep_eq};
ghost use Rattle.model.specs.Dependencies.{NumberedDep, dep, deps, unwaived_deps};
ghost use Rattle.model.specs.Verdicts as verdicts;
ghost use Rattle.model.specs.Verdicts.{begun, over, reasons};
ghost use Rattle.conman_orders.specs.Equals as spec;
ghost use Rattle.conman_orders.specs.Equals.{first_equal};
ghost use Rattle.conman_orders.specs.Said.{added_reasons, own_text};

use crate::dependencies::{asks_too_much, is_same, names_foreign, names_nothing};
use crate::objects::{
    has_begun, is_cancelled, is_closed, is_complete, is_due, is_good, is_open, object_reason,
};
use base_types::{
    Dep, GREATEST_LIMIT, GREATEST_PRIORITY, JobNo, MOST_DEPENDENCIES, Net, Obj, PromptRef,
    StreamNo, Text, Why, Ws,
};
use network_tree::is_only_shown;
use owner_fold::Owners;

/// Whether this dependency of the object equals the other, and is not waived.
fn is_equal_at(o: &Owners, object: &Obj, dep: &Dep, i: u16) -> bool
    ensures { result ≡ spec.is_equal_at (view_of o.now) object.now dep.now i }
{
    match o.dep(*object, i) {
        None => false,
        Some(found) => is_same(dep, found) && !o.is_waived(*object, i),
    }
}

/// The number of the first dependency of the object that equals this one and is not waived.
#[tactic(auto, using(crate::proofs::Equal::equal_steps))]
pub fn equal_dep(o: &Owners, object: &Obj, dep: &Dep) -> Option<u16>
    ensures { result ≡ first_equal (view_of o.now) object.now dep.now }
{
    for before in 0..o.dep_count(*object) {
        if is_equal_at(o, object, dep, before + 1) {
            return Some(before + 1);
        }
    }
    None
}

/// Why the dependencies of an object stay as they are.
fn fixed(o: &Owners, object: &Obj) -> Option<Why>
    ensures { (w : ℕ) → owner (view_of o.now) object.now ≡ Some w →
        result ≡ first_of_these ((begun (view_of o.now (Events w)) object.now, Why.Running)
        ∷ (
          over (view_of o.now (Events w)) object.now
              || is_cancelled object.now (view_of o.now (Events w)),
          Why.Ended,
        )
        ∷ []) }
{
    if has_begun(o, object) {
        return Some(Why::Running);
    }
    if is_closed(o, object) {
        return Some(Why::Ended);
    }
    None
}

/// Whether an equal dependency of the object is not waived.
fn has_equal(o: &Owners, object: &Obj, dep: &Dep) -> bool
    ensures { result ≡ list_any (λ (p : NumberedDep). dep_eq dep.now p.dep)
        (unwaived_deps (view_of o.now) object.now) }
{
    equal_dep(o, object, dep).is_some()
}

/// Whether the object has as many dependencies as it may, or this one asks for more units than a resource can have.
fn is_out_of_range(o: &Owners, object: &Obj, dep: &Dep) -> bool
    ensures { result ≡ (nat_le 64 (length (deps (view_of o.now) object.now)) || verdicts.asks_too_much dep.now) }
{
    o.dep_count(*object) >= MOST_DEPENDENCIES || asks_too_much(dep)
}

/// Why a dependency is not added to an object, by what it names and by those that are there.
fn added_reason(net: &Net, o: &Owners, me: Ws, object: &Obj, dep: &Dep) -> Option<Why>
    ensures { result ≡ first_of_these (added_reasons net.now (view_of o.now) me object.now dep.now) }
{
    if names_nothing(net, o, dep) {
        return Some(Why::NotThere);
    }
    if names_foreign(net, me, dep) {
        return Some(Why::NotMine);
    }
    if is_out_of_range(o, object, dep) {
        return Some(Why::OutOfRange);
    }
    if has_equal(o, object, dep) {
        return Some(Why::AlreadyThere);
    }
    None
}

/// Why a dependency is not added to an object: as far as the object goes, for what keeps it from being released.
pub fn add_dep(net: &Net, o: &Owners, me: Ws, object: &Obj, dep: &Dep) -> Option<Why>
    ensures { result ≡ first_of_these (reasons net.now (view_of o.now) me (AddDep object.now dep.now)) }
{
    match release(o, me, object) {
        Some(why) => Some(why),
        None => added_reason(net, o, me, object, dep),
    }
}

/// Why a dependency of an object is not waived, by its number from 1.
#[tactic(auto, unfolding(model::specs::Verdicts::reasons))]
pub fn del_dep(o: &Owners, me: Ws, object: &Obj, i: u16) -> Option<Why>
    ensures { (net : Nets) → result ≡ first_of_these (reasons net (view_of o.now) me (DelDep object.now i)) }
{
    if let Some(why) = object_reason(o, me, object) {
        return Some(why);
    }
    if let Some(why) = fixed(o, object) {
        return Some(why);
    }
    if o.dep(*object, i).is_none() {
        return Some(Why::NotThere);
    }
    if o.is_waived(*object, i) {
        return Some(Why::AlreadyThere);
    }
    None
}

/// Why the dependencies of an object are not waived.
#[tactic(auto, unfolding(model::specs::Verdicts::reasons))]
pub fn release(o: &Owners, me: Ws, object: &Obj) -> Option<Why>
    ensures { (net : Nets) → result ≡ first_of_these (reasons net (view_of o.now) me (Release object.now)) }
{
    if let Some(why) = object_reason(o, me, object) {
        return Some(why);
    }
    fixed(o, object)
}

/// Why the priority of an object is not set.
#[tactic(auto, unfolding(model::specs::Verdicts::reasons))]
pub fn alt_pri(o: &Owners, me: Ws, object: &Obj, priority: u8) -> Option<Why>
    ensures { (net : Nets) → result ≡ first_of_these (reasons net (view_of o.now) me (AltPri object.now priority)) }
{
    if let Some(why) = object_reason(o, me, object) {
        return Some(why);
    }
    if priority > GREATEST_PRIORITY {
        return Some(Why::OutOfRange);
    }
    None
}

/// Why an object is not cancelled.
#[tactic(auto, unfolding(model::specs::Verdicts::reasons))]
pub fn cancel(o: &Owners, me: Ws, object: &Obj) -> Option<Why>
    ensures { (net : Nets) → result ≡ first_of_these (reasons net (view_of o.now) me (Cancel object.now)) }
{
    if let Some(why) = object_reason(o, me, object) {
        return Some(why);
    }
    if is_cancelled(o, object) {
        return Some(Why::AlreadyThere);
    }
    if is_complete(o, object) {
        return Some(Why::Ended);
    }
    None
}

/// Why the last end of a job is not counted as a good one.
#[tactic(auto, unfolding(model::specs::Verdicts::reasons))]
pub fn confirm(o: &Owners, me: Ws, j: JobNo) -> Option<Why>
    ensures { (net : Nets) → result ≡ first_of_these (reasons net (view_of o.now) me (Confirm j)) }
{
    let job = Obj::Job(j);
    if let Some(why) = object_reason(o, me, &job) {
        return Some(why);
    }
    if is_open(o, j) {
        return Some(Why::Running);
    }
    if is_due(o, j) {
        return Some(Why::NotEnded);
    }
    if is_good(o, j) {
        return Some(Why::AlreadyThere);
    }
    None
}

/// Why a job's process is not ended.
#[tactic(auto, unfolding(model::specs::Verdicts::reasons))]
pub fn kill(o: &Owners, me: Ws, j: JobNo) -> Option<Why>
    ensures { (net : Nets) → result ≡ first_of_these (reasons net (view_of o.now) me (Kill j)) }
{
    let job = Obj::Job(j);
    if let Some(why) = object_reason(o, me, &job) {
        return Some(why);
    }
    if !is_open(o, j) {
        return Some(Why::NotRunning);
    }
    None
}

/// Why a job is not run once more.
#[tactic(auto, unfolding(model::specs::Verdicts::reasons))]
pub fn rerun(o: &Owners, me: Ws, j: JobNo) -> Option<Why>
    ensures { (net : Nets) → result ≡ first_of_these (reasons net (view_of o.now) me (Rerun j)) }
{
    let job = Obj::Job(j);
    if let Some(why) = object_reason(o, me, &job) {
        return Some(why);
    }
    if is_open(o, j) {
        return Some(Why::Running);
    }
    if is_due(o, j) {
        return Some(Why::NotEnded);
    }
    if is_cancelled(o, &job) {
        return Some(Why::Ended);
    }
    None
}

/// Why the limit of a stream is not set.
#[tactic(auto, unfolding(model::specs::Verdicts::reasons))]
pub fn stream_limit(o: &Owners, me: Ws, s: StreamNo, limit: u16) -> Option<Why>
    ensures { (net : Nets) → result ≡ first_of_these (reasons net (view_of o.now) me (StreamLimit s limit)) }
{
    let stream = Obj::Stream(s);
    if let Some(why) = object_reason(o, me, &stream) {
        return Some(why);
    }
    if limit > GREATEST_LIMIT {
        return Some(Why::OutOfRange);
    }
    None
}

/// The text of an object's own prompt, which its dependency of this number from 1 asks.
fn own_prompt<'a>(o: &'a Owners, object: &Obj, i: u16) -> Option<&'a Text>
    ensures { option_copied result ≡ option_and_then own_text (dep (view_of o.now) object.now i) }
{
    match o.dep(*object, i) {
        Some(Dep::Prompt(PromptRef::Own(text))) => Some(text),
        _ => None,
    }
}

/// Why an object's own prompt is not answered, which its dependency of this number from 1 asks.
#[tactic(auto, unfolding(model::specs::Verdicts::reasons))]
pub fn reply_own(o: &Owners, me: Ws, object: &Obj, i: u16, yes: bool) -> Option<Why>
    ensures { (net : Nets) → result ≡ first_of_these (reasons net (view_of o.now) me (ReplyOwn object.now i yes)) }
{
    if let Some(why) = object_reason(o, me, object) {
        return Some(why);
    }
    let Some(text) = own_prompt(o, object, i) else {
        return Some(Why::NotThere);
    };
    if o.own_reply(*object, i) == Some(true) || is_only_shown(text) {
        return Some(Why::AlreadyThere);
    }
    None
}
