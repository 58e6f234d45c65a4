//! The best of the ready jobs and the lowest streams to release and to end, and what keeps track of them.
ghost use Rattle.std.specs.Prelude.{◌≡◌, ◌<◌, ◌++◌, ◌∷◌, [], IsOk, List, OnOk, filter, ℕ};
ghost use Rattle.model.specs.Types.{Entry as Taken, PromptDef as Prompts, Resource as Resources};
ghost use Rattle.model.specs.Network.{node_count};
ghost use Rattle.model.specs.History.{view_of};
ghost use Rattle.model.specs.OwnMembers.{may_end, may_release, own_numbers};
ghost use Rattle.model.specs.Readiness as spec;
ghost use Rattle.model.specs.Words.{least};
ghost use Rattle.dependencies.specs.Planned.{IsPlannedJob};
ghost use Rattle.dependencies.specs.Ranks.{better_rank, rank_of};
ghost use Rattle.owner_fold.specs.DocPlaces.{stream_job};

use crate::launches::is_ready_in;
use crate::priorities::{job_priority, stream_priority};
use crate::scans::{lowest_to_end, lowest_to_release};
use base_types::{Entry, JobDoc, JobNo, NoMemory, StreamDoc, StreamNo, Ws};
use decision_rules::{Rank, comes_before};
use network_tree::Network;
use owner_fold::Owners;

/// What keeps track of the best job of one workstation, and of its own members that may be released or end, while a node
/// takes entries.
///
/// The law: a value stands for the entries that an `Owners` took where it took each of them, by `took`, directly after
/// the `Owners` had taken it, where all its calls named one workstation, and where the nets of all its calls had the
/// same resources and prompts. A value that is new stands for no entries, which the call that makes it says. Where a
/// value stands for the entries of `o`, `best` answers the best job by these entries, and `lowest_to_release` and
/// `lowest_to_end` the lowest streams.
pub trait Readiness {
    /// When a value stands for these entries, this workstation, and a net with these resources and prompts.
    ghost stands_for: { Self → List Taken → ℕ → List Resources → List Prompts → Type 0 };

    /// Takes an entry that `o` has taken just before, as its last. After `NoMemory` the value is of no use, and is
    /// made anew.
    fn took(&mut self, net: &Network, o: &Owners, w: Ws, e: &Entry) -> Result<(), NoMemory>
        requires { w < node_count net.now }
        ensures { OnOk result ((before : List Taken) → o.now ≡ before ++ e.now ∷ []
            → stands_for self.old before w net.now.resources net.now.prompts
            → stands_for self.new o.now w net.now.resources net.now.prompts) };

    /// The ready job of w with the highest priority of its stream, then the highest of its own, then the lowest
    /// number. None where no job is ready. It takes no memory.
    fn best(&self, net: &Network, o: &Owners, w: Ws) -> Option<JobNo>
        requires { w < node_count net.now }
        ensures { stands_for self.now o.now w net.now.resources net.now.prompts
            → result ≡ spec.best net.now (view_of o.now) w };

    /// The lowest own member of w that may be released. None where none may. It takes no memory.
    fn lowest_to_release(&self, net: &Network, o: &Owners, w: Ws) -> Option<StreamNo>
        ensures { stands_for self.now o.now w net.now.resources net.now.prompts
            → result ≡ least (filter (may_release net.now (view_of o.now) w) (own_numbers (view_of o.now) w)) };

    /// The lowest own member of w that may end. None where none may. It takes no memory.
    fn lowest_to_end(&self, net: &Network, o: &Owners, w: Ws) -> Option<StreamNo>
        ensures { stands_for self.now o.now w net.now.resources net.now.prompts
            → result ≡ least (filter (may_end (view_of o.now) w) (own_numbers (view_of o.now) w)) };
}

/// The plain way: it keeps nothing, and looks at each job of the catalogue, or each stream that waits or is under way,
/// whenever it is asked. So a `Scan` stands for whatever was taken, and its `took` takes no memory.
#[derive(Clone, Copy)]
pub struct Scan;

impl Readiness for Scan {
    ghost stands_for = { λ scan taken w resources prompts. Unit {0} };

    /// Never refuses.
    fn took(&mut self, _net: &Network, _o: &Owners, _w: Ws, _e: &Entry) -> Result<(), NoMemory>
        ensures { IsOk result }
    {
        Ok(())
    }

    /// The best job, whatever was taken.
    fn best(&self, net: &Network, o: &Owners, w: Ws) -> Option<JobNo>
        ensures { result ≡ spec.best net.now (view_of o.now) w }
    {
        best_of_all(net, o, w)
    }

    /// The lowest stream that may be released, whatever was taken.
    fn lowest_to_release(&self, net: &Network, o: &Owners, w: Ws) -> Option<StreamNo>
        ensures { result ≡ least (filter (may_release net.now (view_of o.now) w) (own_numbers (view_of o.now) w)) }
    {
        lowest_to_release(net, o, w)
    }

    /// The lowest stream that may end, whatever was taken.
    fn lowest_to_end(&self, _net: &Network, o: &Owners, w: Ws) -> Option<StreamNo>
        ensures { result ≡ least (filter (may_end (view_of o.now) w) (own_numbers (view_of o.now) w)) }
    {
        lowest_to_end(o, w)
    }
}

/// The rank of a job of the catalogue.
fn ranked(o: &Owners, parent: &StreamDoc, doc: &JobDoc) -> Rank
    requires { IsPlannedJob (view_of o.now) (stream_job parent.now doc.now) }
    ensures { result ≡ rank_of (view_of o.now) (stream_job parent.now doc.now) }
{
    Rank {
        stream: stream_priority(o, parent),
        job: job_priority(o, parent, doc),
        number: doc.no.0,
    }
}

/// The better of the best so far and the next.
fn better(best: Option<Rank>, next: Rank) -> Rank
    ensures { result ≡ better_rank best next }
{
    match best {
        None => next,
        Some(before) => {
            if comes_before(&next, &before) {
                next
            } else {
                before
            }
        }
    }
}

/// The best of the ready jobs of w.
fn best_of_all(net: &Network, o: &Owners, w: Ws) -> Option<JobNo>
    ensures { result ≡ spec.best net.now (view_of o.now) w }
{
    let mut best = None;
    for (parent, doc) in o.jobs() {
        if is_ready_in(net, o, w, parent, doc) {
            best = Some(better(best, ranked(o, parent, doc)));
        }
    }
    match best {
        None => None,
        Some(rank) => Some(JobNo(rank.number)),
    }
}
