//! What stands in a workstation's list of a launch.
ghost use Rattle.std.specs.Prelude.{◌≡◌, List};
ghost use Rattle.std.specs.Bool.{Decides};
ghost use Rattle.model.specs.Types.{Ended, Entry as Kept, Events, Started};
ghost use Rattle.model.specs.History.{list_of, view_of};
ghost use Rattle.model.specs.NewEntry as spec;
ghost use Rattle.model.specs.Sound.{IsOpenLaunch, NamesItsLaunch};
ghost use Rattle.counted_facts.specs.Launches.{AreTold};

use base_types::{JobNo, Ws};
use counted_facts::ToldLaunches;
use owner_fold::Owners;
use rc_conditions::holds;

/// Whether w's list has this launch, and no end of it.
pub(crate) fn is_open_launch(launches: &ToldLaunches, w: Ws, j: JobNo, n: u32) -> bool
    ensures { (before : List Kept) → AreTold before launches.now
        → Decides result (IsOpenLaunch (list_of before (Events w)) j n) }
{
    launches.is_launched(w, j, n) && !launches.is_ended(w, j, n)
}

/// Whether the start that w tells next is the first of an open launch.
#[tactic(auto, unfolding(model::specs::Facts::is_started))]
pub(crate) fn is_right_started(
    owners: &Owners,
    launches: &ToldLaunches,
    w: Ws,
    j: JobNo,
    n: u32,
) -> bool
    requires { AreTold owners.now launches.now }
    ensures { Decides result (NamesItsLaunch owners.now w (Started j n)) }
{
    is_open_launch(launches, w, j, n) && !owners.kept().is_started_at(w, j, n)
}

/// Whether the end that w tells next is of an open launch, and is marked by the job's condition.
pub(crate) fn is_right_ending(
    owners: &Owners,
    launches: &ToldLaunches,
    w: Ws,
    j: JobNo,
    n: u32,
    rc: &i32,
    good: bool,
) -> bool
    requires { AreTold owners.now launches.now }
    ensures { Decides result (NamesItsLaunch owners.now w (Ended j n rc.now good)) }
{
    is_open_launch(launches, w, j, n) && good == ends_well(owners, j, rc)
}

/// Whether a job's condition holds for a return code. False outside the catalogue.
fn ends_well(owners: &Owners, j: JobNo, rc: &i32) -> bool
    ensures { result ≡ spec.ends_well (view_of owners.now) j rc.now }
{
    match owners.job(j) {
        None => false,
        Some(doc) => holds(&doc.cond, *rc),
    }
}
