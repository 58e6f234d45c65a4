//! The job for which there is advice, and the advice.
ghost use Rattle.std.specs.Prelude.{◌≡◌, ℕ, false, filter, true};
ghost use Rattle.model.specs.Types.{Events};
ghost use Rattle.model.specs.Words.{least, lesser};
ghost use Rattle.model.specs.History.{view_of};
ghost use Rattle.model.specs.OwnMembers.{own_job_numbers};
ghost use Rattle.owner_fold.specs.DocPlaces.{stream_job};
ghost use Rattle.recovery_watch.specs.Advice as spec;

use base_types::{Cmd, Feed, JobDoc, JobNo, Obj, Recovery, StreamDoc, Ws};
use network_tree::Network;
use owner_fold::Owners;

/// What a workstation advises itself: None while an order of its own to itself is not answered. Else it looks at the
/// lowest own member's job that ended badly and is not due, open or cancelled, whose stream is not cancelled, and
/// whose recovery is to continue, or to rerun where it was not rerun yet. To continue is to confirm the job. It takes no
/// memory, and the network decides nothing here.
#[tactic(auto, unfolding(crate::specs::Advice::advice))]
pub fn advice(_net: &Network, o: &Owners, me: Ws) -> Option<Cmd>
    ensures { result ≡ spec.advice (view_of o.now) me }
{
    if is_waiting(o, me) {
        return None;
    }
    match lowest_advised(o, me) {
        None => None,
        Some(j) => advised_at(o, j),
    }
}

/// Whether an order of a workstation to itself is not answered.
fn is_waiting(o: &Owners, w: Ws) -> bool
    ensures { result ≡ spec.is_waiting (view_of o.now) w }
{
    o.answered(w, w) < o.count(Feed::Orders(w, w))
}

/// The lowest own member's job of a workstation for which there is advice.
#[tactic(auto, using(dependencies::proofs::Found::jobs_left_planned), unfolding(model::specs::OwnMembers::own_jobs, model::specs::Catalogue::jobs_of))]
fn lowest_advised(o: &Owners, w: Ws) -> Option<JobNo>
    ensures { let V = view_of o.now in result ≡ least (filter (spec.needs_advice V w) (own_job_numbers V w)) }
{
    let mut lowest = None;
    for (parent, doc) in o.jobs() {
        if needs_advice(o, w, parent, doc) {
            lowest = Some(lower(lowest, doc.no.0));
        }
    }
    match lowest {
        None => None,
        Some(number) => Some(JobNo(number)),
    }
}

/// The lower of a number and one that may be there.
fn lower(lowest: Option<u32>, number: u32) -> u32
    ensures { result ≡ lesser number lowest }
{
    match lowest {
        None => number,
        Some(before) => before.min(number),
    }
}

/// Whether a job is an own member's, ended badly, is not called off, and its recovery has something to do.
fn needs_advice(o: &Owners, w: Ws, parent: &StreamDoc, doc: &JobDoc) -> bool
    ensures { result ≡ spec.needs_advice_in (view_of o.now) w (stream_job parent.now doc.now) }
{
    if stops(&doc.recovery) {
        return false;
    }
    if doc.ws != w {
        return false;
    }
    if !o.is_member(parent.no) {
        return false;
    }
    if !has_ended_badly(o, w, doc.no) {
        return false;
    }
    if is_called_off(o, w, parent, doc) {
        return false;
    }
    recovers(&doc.recovery, o.kept().reruns_at(w, doc.no))
}

/// Whether a job of a workstation is not due, has no open launch, is not good, and its last launch ended with a return
/// code.
fn has_ended_badly(o: &Owners, w: Ws, j: JobNo) -> bool
    ensures { result ≡ spec.has_ended_badly j (view_of o.now (Events w)) }
{
    let kept = o.kept();
    !kept.is_due_at(w, j)
        && !kept.is_open_at(w, j)
        && !kept.is_good_at(w, j)
        && kept.last_end_at(w, j).is_some()
}

/// Whether a job of a workstation is cancelled, or its stream by the stream's owner.
fn is_called_off(o: &Owners, w: Ws, parent: &StreamDoc, doc: &JobDoc) -> bool
    ensures { result ≡ spec.is_called_off (view_of o.now) w (stream_job parent.now doc.now) }
{
    let job = Obj::Job(doc.no);
    let stream = Obj::Stream(parent.no);
    o.kept().is_cancelled_at(w, &job) || o.kept().is_cancelled_at(parent.ws, &stream)
}

/// Whether a recovery is to stop, and so has never anything to do.
fn stops(recovery: &Recovery) -> bool
    ensures { result ≡ true → (reruns : ℕ) → spec.recovers recovery.now reruns ≡ false }
{
    matches!(recovery, Recovery::Stop)
}

/// Whether a recovery has something to do for a job that was rerun so often.
fn recovers(recovery: &Recovery, reruns: u32) -> bool
    ensures { result ≡ spec.recovers recovery.now reruns }
{
    match recovery {
        Recovery::Stop => false,
        Recovery::Continue => true,
        Recovery::Rerun => reruns == 0,
    }
}

/// What the recovery of a job of the catalogue advises.
fn advised_at(o: &Owners, j: JobNo) -> Option<Cmd>
    ensures { result ≡ spec.advised_at (view_of o.now) j }
{
    match o.planned_job(j) {
        None => None,
        Some((_parent, doc)) => advised(doc),
    }
}

/// What the recovery of a job advises.
fn advised(doc: &JobDoc) -> Option<Cmd>
    ensures { result ≡ spec.advised doc.now }
{
    match doc.recovery {
        Recovery::Stop => None,
        Recovery::Continue => Some(Cmd::Confirm(doc.no)),
        Recovery::Rerun => Some(Cmd::Rerun(doc.no)),
    }
}
