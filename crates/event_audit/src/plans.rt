//! Whether a new plan is right: its run, its cut, what it carries and its documents.
ghost use Rattle.std.specs.Prelude.{◌≡◌, ◌&&◌, ◌+◌, ◌==◌, length};
ghost use Rattle.std.specs.Bool.{Decides};
ghost use Rattle.model.specs.Types.{Events, NewPlan};
ghost use Rattle.model.specs.History.{count_in, list_of, view_of};
ghost use Rattle.model.specs.NewPlan.{last_run};
ghost use Rattle.model.specs.Sound.{CarriesByTheOption, IsCarried};
ghost use Rattle.counted_facts.specs.Told.{AreCountedFacts};
ghost use Rattle.event_audit.specs.Plans.{AreRightDocuments};
ghost use Rattle.event_audit.specs.Prefixes.{are_there};

use crate::carried_streams::carries_exactly;
use crate::follows::follow_what_is_meant;
use crate::numbers::are_numbered_on;
use crate::prefixes::has_the_counts;
use base_types::{Seen, SharedDocs, StreamDoc, StreamNo, StreamNos, Ws};
use counted_decisions::Sight;
use counted_facts::CountedFacts;
use network_tree::Network;
use owner_fold::Owners;

/// Whether it is the run after that of the master's last plan, 1 without one.
fn is_next_run(owners: &Owners, run: u32) -> bool
    ensures { result ≡ (run == 1 + last_run (list_of owners.now (Events 0))) }
{
    run > 0 && owners.run() == run - 1
}

/// Whether a plan has the next run, and its cut counts all that the master made and no more than there is of the others.
fn begins_right(owners: &Owners, run: u32, cut: &Seen) -> bool
    ensures { result ≡ ((run == 1 + last_run (list_of owners.now (Events 0)))
        && ((count_in cut.now 0 == length (list_of owners.now (Events 0))) && are_there owners.now cut.now cut.now)) }
{
    is_next_run(owners, run) && has_the_counts(owners, Ws(0), cut)
}

/// Whether the documents of a plan have the next numbers, and follow what is meant.
fn are_right_documents(owners: &Owners, docs: &[StreamDoc], carried: &[StreamNo]) -> bool
    ensures { Decides result (AreRightDocuments (view_of owners.now) carried.now docs.now) }
{
    are_numbered_on(owners, docs) && follow_what_is_meant(owners, docs, carried)
}

/// Whether a new plan in w's list is right after the entries that were taken. It is the master's, it has the next run,
/// its cut counts all that the master made and no more than there is of the others, it carries exactly what the
/// network's option takes of the members that were unfinished by its cut, and its documents go on from the catalogue.
pub(crate) fn is_right_plan(
    net: &Network,
    owners: &Owners,
    facts: &CountedFacts,
    w: Ws,
    run: u32,
    cut: &Seen,
    carried: &StreamNos,
    docs: &SharedDocs,
) -> bool
    requires { AreCountedFacts owners.now facts.now }
    ensures { Decides result
        (CarriesByTheOption net.now.carry owners.now (Events w) (NewPlan run cut.now carried.now docs.now)) }
{
    if w.0 != 0 {
        return false;
    }
    is_plan_of_the_master(
        net,
        owners,
        facts,
        run,
        cut,
        carried.as_slice(),
        docs.as_slice(),
    )
}

/// Whether a new plan of the master is right after the entries that were taken.
fn is_plan_of_the_master(
    net: &Network,
    owners: &Owners,
    facts: &CountedFacts,
    run: u32,
    cut: &Seen,
    carried: &[StreamNo],
    docs: &[StreamDoc],
) -> bool
    requires { AreCountedFacts owners.now facts.now }
    ensures { Decides result (IsCarried net.now.carry owners.now run cut.now carried.now docs.now) }
{
    if !begins_right(owners, run, cut) {
        return false;
    }
    if !are_right_documents(owners, docs, carried) {
        return false;
    }
    let sight = Sight {
        owners,
        facts,
        seen: cut,
    };
    carries_exactly(net, &sight, carried)
}
