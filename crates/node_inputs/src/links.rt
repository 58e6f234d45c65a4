//! Links that are asked to begin or to end.
ghost use Rattle.std.specs.Prelude.{ℕ, ◌<◌, ◌≡◌, ◌≤◌, List, None, OnOk, Option, false, get_or};
ghost use Rattle.model.specs.Network.{node_count};
ghost use Rattle.agent_core.specs.Nodes.{NodeState};
ghost use Rattle.file_watch.specs.Asked.{Probe};
ghost use Rattle.outside.specs.Calls.{SpawnerCalls};
ghost use Rattle.node_inputs.specs.Keeping.{IsReady};
ghost use Rattle.node_inputs.specs.Doings.{Does, DoesOutside, end_of};
ghost use Rattle.node_inputs.specs.Inputs.{Lose, LoseAll, LoseIf, Raise, RaiseNew};
ghost use Rattle.node_inputs.specs.Stepping.{AreKeepable, TellLost, TellNeighbours};
ghost use Rattle.node_inputs.specs.Tellings.{told_by};

use crate::ends::NodeEnd;
use crate::steps::take_quietly;
use agent_core::Agent;
use base_types::{Input, Local, MOST_WORKSTATIONS, Ws};
use outside::{Keeper, Link};
use std::alloc::Global;

/// Something that is so, or not, of each workstation.
pub(crate) type Flags = [bool; MOST_WORKSTATIONS];

/// What the flags tell of a workstation.
pub(crate) fn is_flagged(flags: &Flags, x: u16) -> bool
    ensures { result ≡ get_or flags.now x false }
{
    flags.get(usize::from(x)).copied().unwrap_or(false)
}

/// Which workstations are neighbours of the node.
pub(crate) fn neighbours(agent: &Agent) -> Flags
    ensures told { TellNeighbours agent.now result }
    ensures few { node_count agent.now.net ≤ 256 }
{
    let count = agent.defined().count();
    let mut flags = [false; MOST_WORKSTATIONS];
    for x in 0..count {
        flags[usize::from(x)] = agent.net().neighbours(agent.me(), Ws(x));
    }
    flags
}

/// Asks for a link to a workstation, where it has become a neighbour.
fn raise_if_new<L: Link>(agent: &Agent, link: &mut L, before: &Flags, x: u16)
    requires inside { x < node_count agent.now.net }
    ensures { (old : NodeState) (jobs : SpawnerCalls) (clock : Option (List ℕ)) (files : Option (List Probe)) →
        TellNeighbours old before.now → node_count old.net ≡ node_count agent.now.net →
        DoesOutside (RaiseNew old agent.now x) agent.now agent.now (told_by (L.calls link.old) jobs clock files)
        (told_by (L.calls link.new) jobs clock files) None }
{
    if !is_flagged(before, x) && agent.net().neighbours(agent.me(), Ws(x)) {
        link.raise(Ws(x));
    }
}

/// Asks for a link to each workstation that has become a neighbour.
pub(crate) fn raise_new<L: Link>(agent: &Agent, link: &mut L, before: &Flags)
    ensures { (old : NodeState) (jobs : SpawnerCalls) (clock : Option (List ℕ)) (files : Option (List Probe)) →
        TellNeighbours old before.now → node_count old.net ≡ node_count agent.now.net →
        DoesOutside (Raise old) agent.now agent.now (told_by (L.calls link.old) jobs clock files)
        (told_by (L.calls link.new) jobs clock files) None }
{
    for x in 0..agent.defined().count() {
        raise_if_new(agent, link, before, x);
    }
}

/// The link to a workstation is lost: it is closed, and the node is told.
pub fn lose<K: Keeper, L: Link>(
    alloc: Global,
    agent: &mut Agent,
    keeper: &mut K,
    link: &mut L,
    x: Ws,
) -> Result<(), NodeEnd>
    requires ready { IsReady K.kept K.spent K.may_leave keeper.old }
    requires keepable { AreKeepable agent.old.kept }
    ensures does { (jobs : SpawnerCalls) (clock : Option (List ℕ)) (files : Option (List Probe)) →
        Does K.kept K.size K.faults K.moment K.may_leave K.left_since K.opens_since (Lose x)
        agent.old agent.new keeper.old keeper.new (told_by (L.calls link.old) jobs clock files)
        (told_by (L.calls link.new) jobs clock files) (end_of result) }
    ensures ready { OnOk result (IsReady K.kept K.spent K.may_leave keeper.new) }
    ensures keepable { OnOk result (AreKeepable agent.new.kept) }
{
    link.close(x);
    take_quietly(alloc, agent, keeper, &Input::Local(Local::Unlinked(x)))
}

/// The link to a workstation is lost, where a send to it failed.
fn lose_if<K: Keeper, L: Link>(
    alloc: Global,
    agent: &mut Agent,
    keeper: &mut K,
    link: &mut L,
    lost: &Flags,
    x: u16,
) -> Result<(), NodeEnd>
    requires ready { IsReady K.kept K.spent K.may_leave keeper.old }
    requires keepable { AreKeepable agent.old.kept }
    requires few { x < 256 }
    ensures does { (all : List ℕ) (jobs : SpawnerCalls) (clock : Option (List ℕ)) (files : Option (List Probe)) →
        TellLost lost.now all →
        Does K.kept K.size K.faults K.moment K.may_leave K.left_since K.opens_since (LoseIf all x)
        agent.old agent.new keeper.old keeper.new (told_by (L.calls link.old) jobs clock files)
        (told_by (L.calls link.new) jobs clock files) (end_of result) }
    ensures ready { OnOk result (IsReady K.kept K.spent K.may_leave keeper.new) }
    ensures keepable { OnOk result (AreKeepable agent.new.kept) }
{
    if is_flagged(lost, x) {
        lose(alloc, agent, keeper, link, Ws(x))
    } else {
        Ok(())
    }
}

/// The links to all workstations to which a send failed are lost, in ascending order.
pub(crate) fn lose_all<K: Keeper, L: Link>(
    alloc: Global,
    agent: &mut Agent,
    keeper: &mut K,
    link: &mut L,
    lost: &Flags,
) -> Result<(), NodeEnd>
    requires ready { IsReady K.kept K.spent K.may_leave keeper.old }
    requires keepable { AreKeepable agent.old.kept }
    ensures does { (all : List ℕ) (jobs : SpawnerCalls) (clock : Option (List ℕ)) (files : Option (List Probe)) →
        TellLost lost.now all →
        Does K.kept K.size K.faults K.moment K.may_leave K.left_since K.opens_since (LoseAll all)
        agent.old agent.new keeper.old keeper.new (told_by (L.calls link.old) jobs clock files)
        (told_by (L.calls link.new) jobs clock files) (end_of result) }
    ensures ready { OnOk result (IsReady K.kept K.spent K.may_leave keeper.new) }
    ensures keepable { OnOk result (AreKeepable agent.new.kept) }
{
    let count = agent.defined().count();
    for x in 0..count {
        lose_if(alloc, agent, keeper, link, lost, x)?;
    }
    Ok(())
}
