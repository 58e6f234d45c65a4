//! Whether the plan has room for a stream that is submitted.
ghost use Rattle.std.specs.Prelude.{◌≡◌, [], ◌∷◌};
ghost use Rattle.model.specs.History.{view_of};
ghost use Rattle.model.specs.Catalogue as spec;
ghost use Rattle.model.specs.Catalogue.{members};
ghost use Rattle.model.specs.NewPlan as plans;
ghost use Rattle.model.specs.Verdicts as verdicts;

use base_types::{MOST_JOBS, MOST_STREAMS, StreamDraft, StreamNo};
use owner_fold::Owners;

/// Whether a number of the submitted stream would pass the greatest one.
#[tactic(auto, unfolding(model::specs::NewPlan::are_numbers_spent))]
fn are_numbers_spent(o: &Owners, draft: &StreamDraft) -> bool
    ensures { result ≡ plans.are_numbers_spent (view_of o.now) (draft.now ∷ []) }
{
    o.last_stream().0 == u32::MAX || draft.jobs.len() > (u32::MAX - o.last_job().0) as usize
}

/// Whether the plan would have too many streams with one more.
#[tactic(auto, unfolding(model::specs::NewPlan::are_streams_too_many))]
fn are_streams_too_many(o: &Owners, draft: &StreamDraft) -> bool
    ensures { result ≡ plans.are_streams_too_many (members (view_of o.now)) (draft.now ∷ []) }
{
    o.members().len() >= MOST_STREAMS as usize
}

/// Whether a stream is a member, as it was asked last.
#[derive(Drop)]
struct Asked {
    stream: u32,
    is_member: bool,
}

/// Whether the stream is a member, asked only where it is not the stream that was asked last.
fn ask(o: &Owners, last: &Asked, s: StreamNo) -> Asked
    requires { last.now.is_member ≡ spec.is_member (view_of o.now) last.now.stream }
    ensures stream { result.stream ≡ s }
    ensures member { result.is_member ≡ spec.is_member (view_of o.now) s }
{
    if last.stream == s.0 {
        Asked {
            stream: last.stream,
            is_member: last.is_member,
        }
    } else {
        Asked {
            stream: s.0,
            is_member: o.is_member(s),
        }
    }
}

/// Whether the plan would have too many jobs with those of the draft.
#[tactic(auto, unfolding(model::specs::NewPlan::are_jobs_too_many, model::specs::Catalogue::is_member))]
fn are_jobs_too_many(o: &Owners, draft: &StreamDraft) -> bool
    ensures { result ≡ plans.are_jobs_too_many (view_of o.now) (members (view_of o.now)) (draft.now ∷ []) }
{
    let jobs = draft.jobs.len();
    if jobs > MOST_JOBS as usize {
        return true;
    }
    let mut left = MOST_JOBS as usize - jobs;
    let mut asked = Asked {
        stream: 0,
        is_member: o.is_member(StreamNo(0)),
    };
    // The jobs of a stream stand together, so each stream is asked once.
    for (parent, _) in o.jobs() {
        asked = ask(o, &asked, parent.no);
        if asked.is_member {
            if left == 0 {
                return true;
            }
            left -= 1;
        }
    }
    false
}

/// Whether the plan has no room for the draft, or numbers are spent.
pub fn has_no_room(o: &Owners, draft: &StreamDraft) -> bool
    ensures { result ≡ verdicts.has_no_room (view_of o.now) draft.now }
{
    are_numbers_spent(o, draft) || (are_streams_too_many(o, draft) || are_jobs_too_many(o, draft))
}
