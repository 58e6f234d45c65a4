//! Whether a launch, a release and a stream's end stand on the prefix that they count.
ghost use Rattle.std.specs.Prelude.{◌≡◌, IfOk};
ghost use Rattle.std.specs.Bool.{Decides};
ghost use Rattle.model.specs.Sound.{IsRightEnd, IsRightLaunch, IsRightRelease};
ghost use Rattle.counted_facts.specs.Told.{AreCountedFacts};
ghost use Rattle.counted_facts.specs.Launches.{AreTold};

use crate::prefixes::has_the_counts;
use base_types::{JobNo, NoMemory, Obj, Seen, StreamNo, Ws};
use counted_decisions::{
    Sight, is_ready, may_end, may_release, names_end_witnesses, names_witnesses,
};
use counted_facts::{CountedFacts, ToldLaunches};
use network_tree::Network;
use owner_fold::Owners;
use std::alloc::Global;

/// Whether a launch at w is right after the entries that were taken.
pub(crate) fn is_right_launch(
    alloc: Global,
    net: &Network,
    owners: &Owners,
    facts: &CountedFacts,
    launches: &ToldLaunches,
    w: Ws,
    j: JobNo,
    n: u32,
    seen: &Seen,
) -> Result<bool, NoMemory>
    requires counted { AreCountedFacts owners.now facts.now }
    requires told { AreTold owners.now launches.now }
    ensures { IfOk result (λ right. Decides right (IsRightLaunch net.now owners.now w j n seen.now)) }
{
    if !has_the_counts(owners, w, seen) {
        return Ok(false);
    }
    if n == 0 || launches.count(j) != n - 1 {
        return Ok(false);
    }
    let sight = Sight {
        owners,
        facts,
        seen,
    };
    if !is_ready(net, &sight, w, j) {
        return Ok(false);
    }
    let obj = Obj::Job(j);
    names_witnesses(alloc, &sight, w, &obj)
}

/// Whether a release at w is right after the entries that were taken.
pub(crate) fn is_right_release(
    alloc: Global,
    net: &Network,
    owners: &Owners,
    facts: &CountedFacts,
    w: Ws,
    s: StreamNo,
    seen: &Seen,
) -> Result<bool, NoMemory>
    requires { AreCountedFacts owners.now facts.now }
    ensures { IfOk result (λ right. Decides right (IsRightRelease net.now owners.now w s seen.now)) }
{
    if !has_the_counts(owners, w, seen) {
        return Ok(false);
    }
    let sight = Sight {
        owners,
        facts,
        seen,
    };
    if !may_release(net, &sight, w, s) {
        return Ok(false);
    }
    let obj = Obj::Stream(s);
    names_witnesses(alloc, &sight, w, &obj)
}

/// Whether a stream's end at w is right after the entries that were taken.
pub(crate) fn is_right_end(
    alloc: Global,
    owners: &Owners,
    facts: &CountedFacts,
    w: Ws,
    s: StreamNo,
    seen: &Seen,
) -> Result<bool, NoMemory>
    requires { AreCountedFacts owners.now facts.now }
    ensures { IfOk result (λ right. Decides right (IsRightEnd owners.now w s seen.now)) }
{
    if !has_the_counts(owners, w, seen) {
        return Ok(false);
    }
    let sight = Sight {
        owners,
        facts,
        seen,
    };
    if !may_end(&sight, w, s) {
        return Ok(false);
    }
    names_end_witnesses(alloc, &sight, w, s)
}
