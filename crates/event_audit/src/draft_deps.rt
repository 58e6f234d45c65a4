//! What the dependencies of a submitted draft become in its document.
ghost use Rattle.std.specs.Prelude.{◌≡◌, Some, filter_map, option_map, slice_get};
ghost use Rattle.std.specs.Bool.{Decides};
ghost use Rattle.model.specs.Types.{Plain, StreamDraft as Draft};
ghost use Rattle.model.specs.History.{View, view_of};
ghost use Rattle.event_audit.specs.Drafts.{gives, told};

use crate::draft_names::{followed_job, followed_stream};
use base_types::{Dep, Deps, DraftDep, DraftDeps, StreamDraft};
use owner_fold::Owners;
use value_equality::is_same_dep;

/// What a dependency of a draft becomes. A number may be one that no field holds.
#[derive(Drop)]
enum Resolution<'a> {
    Job(u128),
    Stream(u64),
    Plain(&'a Dep),
}

/// What a dependency that names nothing becomes: itself. One on a job or a stream by its number goes.
fn plain(dep: &Dep) -> Option<Resolution<'_>>
    ensures { (V : View) (draft : Draft) → option_map told result ≡ gives V draft (Plain dep.now) }
{
    match dep {
        Dep::FollowsJob(_) => None,
        Dep::FollowsStream(_) => None,
        _ => Some(Resolution::Plain(dep)),
    }
}

/// What a dependency of a draft becomes. None where its names stand for nothing.
fn resolved<'a>(owners: &Owners, draft: &StreamDraft, dep: &'a DraftDep) -> Option<Resolution<'a>>
    ensures { option_map told result ≡ gives (view_of owners.now) draft.now dep.now }
{
    match dep {
        DraftDep::Follows(ws, name, None) => match followed_stream(owners, draft, *ws, name) {
            None => None,
            Some(number) => Some(Resolution::Stream(number)),
        },
        DraftDep::Follows(ws, name, Some(job)) => {
            match followed_job(owners, draft, *ws, name, job) {
                None => None,
                Some(number) => Some(Resolution::Job(number)),
            }
        }
        DraftDep::Plain(dep) => plain(dep),
    }
}

/// Whether it became this dependency.
fn is_resolved_as(resolved: &Resolution, dep: &Dep) -> bool
    ensures { Decides result (told resolved.now ≡ dep.now) }
{
    match resolved {
        Resolution::Job(number) => match dep {
            Dep::FollowsJob(j) => *number == u128::from(j.0),
            _ => false,
        },
        Resolution::Stream(number) => match dep {
            Dep::FollowsStream(s) => *number == u64::from(s.0),
            _ => false,
        },
        Resolution::Plain(found) => is_same_dep(*found, dep),
    }
}

/// Whether dependencies of a document are what those of a submitted draft become, in order.
pub(crate) fn are_resolved_as(
    owners: &Owners,
    draft: &StreamDraft,
    drafted: &DraftDeps,
    deps: &Deps,
) -> bool
    ensures { Decides result (filter_map (gives (view_of owners.now) draft.now) drafted.now ≡ deps.now) }
{
    become_these(owners, draft, drafted.as_slice(), deps.as_slice())
}

/// Whether the first dependencies become the second, in order.
fn become_these(owners: &Owners, draft: &StreamDraft, drafted: &[DraftDep], deps: &[Dep]) -> bool
    ensures { Decides result (filter_map (gives (view_of owners.now) draft.now) drafted.now ≡ deps.now) }
{
    let mut met = 0;
    for dep in drafted {
        match resolved(owners, draft, dep) {
            None => {}
            Some(found) => {
                if !stands_at(deps, met, &found) {
                    return false;
                }
                met += 1;
            }
        }
    }
    met == deps.len()
}

/// Whether what was resolved stands at a place, counted from 0.
fn stands_at(deps: &[Dep], place: usize, found: &Resolution) -> bool
    ensures { Decides result (slice_get deps.now place ≡ Some (told found.now)) }
{
    match deps.get(place) {
        None => false,
        Some(dep) => is_resolved_as(found, dep),
    }
}
