//! One input: its step, its entry, what it gives out, and what follows.
ghost use Rattle.std.specs.Prelude.{ℕ, ◌≡◌, List, OnOk, Option};
ghost use Rattle.model.specs.Fit.{IsFitInput};
ghost use Rattle.model.specs.Network.{node_count};
ghost use Rattle.agent_core.specs.Nodes.{NodeState};
ghost use Rattle.file_watch.specs.Asked.{Probe};
ghost use Rattle.node_inputs.specs.Keeping.{IsReady};
ghost use Rattle.node_inputs.specs.Doings.{Does, end_of};
ghost use Rattle.node_inputs.specs.Inputs as spec;
ghost use Rattle.node_inputs.specs.Inputs.{Follow, Give, Take, Tell};
ghost use Rattle.node_inputs.specs.Stepping.{AreKeepable, AreWithin, TakesTelling, TellNeighbours};
ghost use Rattle.node_inputs.specs.Tellings.{Told, told_by};

use crate::ends::NodeEnd;
use crate::links::{Flags, lose_all, neighbours, raise_new};
use crate::outputs::carry_all;
use crate::steps::{keep_entry, step, take_quietly};
use agent_core::{Agent, Step, StepFault};
use base_types::{Input, JobNo, Local, Out};
use outside::{Keeper, Link, Spawner};
use std::alloc::Global;

/// What is told to the node of the start of a job.
fn start_told(job: JobNo, ok: bool) -> Input
    ensures told { result ≡ spec.start_told (job, ok) }
    ensures fit { IsFitInput result }
{
    if ok {
        Input::Local(Local::Started(job))
    } else {
        Input::Local(Local::StartFailed(job))
    }
}

/// Tells the node what became of the start of a job, if one was to start.
fn tell<K: Keeper>(
    alloc: Global,
    agent: &mut Agent,
    keeper: &mut K,
    started: &Option<(JobNo, bool)>,
) -> Result<(), NodeEnd>
    requires ready { IsReady K.kept K.spent K.may_leave keeper.old }
    requires keepable { AreKeepable agent.old.kept }
    ensures does { (told : Told) →
        Does K.kept K.size K.faults K.moment K.may_leave K.left_since K.opens_since (Tell started.now)
        agent.old agent.new keeper.old keeper.new told told (end_of result) }
    ensures ready { OnOk result (IsReady K.kept K.spent K.may_leave keeper.new) }
    ensures keepable { OnOk result (AreKeepable agent.new.kept) }
{
    match started {
        None => Ok(()),
        Some((job, ok)) => take_quietly(alloc, agent, keeper, &start_told(*job, *ok)),
    }
}

/// Carries out what a step gives, and tells the node what became of it.
fn give<K: Keeper, L: Link, J: Spawner>(
    alloc: Global,
    agent: &mut Agent,
    keeper: &mut K,
    link: &mut L,
    jobs: &mut J,
    outs: &[Out],
) -> Result<(), NodeEnd>
    requires ready { IsReady K.kept K.spent K.may_leave keeper.old }
    requires keepable { AreKeepable agent.old.kept }
    requires within { AreWithin 256 outs.now }
    ensures does { (clock : Option (List ℕ)) (files : Option (List Probe)) →
        Does K.kept K.size K.faults K.moment K.may_leave K.left_since K.opens_since (Give outs.now)
        agent.old agent.new keeper.old keeper.new (told_by (L.calls link.old) (J.calls jobs.old) clock files)
        (told_by (L.calls link.new) (J.calls jobs.new) clock files) (end_of result) }
    ensures ready { OnOk result (IsReady K.kept K.spent K.may_leave keeper.new) }
    ensures keepable { OnOk result (AreKeepable agent.new.kept) }
{
    let carried = carry_all(alloc, agent, link, jobs, outs)?;
    tell(alloc, agent, keeper, &carried.started)?;
    lose_all(alloc, agent, keeper, link, &carried.lost)
}

/// What follows a step whose entry is kept: links to new neighbours are asked for, and its outputs are carried out.
fn follow<K: Keeper, L: Link, J: Spawner>(
    alloc: Global,
    agent: &mut Agent,
    keeper: &mut K,
    link: &mut L,
    jobs: &mut J,
    before: &Flags,
    step: &Step,
) -> Result<(), NodeEnd>
    requires ready { IsReady K.kept K.spent K.may_leave keeper.old }
    requires keepable { AreKeepable agent.old.kept }
    requires within { AreWithin 256 step.now.outs }
    ensures does { (old : NodeState) (clock : Option (List ℕ)) (files : Option (List Probe)) →
        TellNeighbours old before.now → node_count old.net ≡ node_count agent.old.net →
        Does K.kept K.size K.faults K.moment K.may_leave K.left_since K.opens_since (Follow old step.now)
        agent.old agent.new keeper.old keeper.new (told_by (L.calls link.old) (J.calls jobs.old) clock files)
        (told_by (L.calls link.new) (J.calls jobs.new) clock files) (end_of result) }
    ensures ready { OnOk result (IsReady K.kept K.spent K.may_leave keeper.new) }
    ensures keepable { OnOk result (AreKeepable agent.new.kept) }
{
    raise_new(agent, link, before);
    give(alloc, agent, keeper, link, jobs, step.outs.as_slice())
}

/// Takes an input, and tells its fault where it has one. The entry of its step is kept before anything else is done.
pub fn take_or_tell<K: Keeper, L: Link, J: Spawner>(
    alloc: Global,
    agent: &mut Agent,
    keeper: &mut K,
    link: &mut L,
    jobs: &mut J,
    input: &Input,
) -> Result<Option<StepFault>, NodeEnd>
    requires ready { IsReady K.kept K.spent K.may_leave keeper.old }
    requires keepable { AreKeepable agent.old.kept }
    requires fit { IsFitInput input.now }
    ensures does { (clock : Option (List ℕ)) (files : Option (List Probe)) →
        Does K.kept K.size K.faults K.moment K.may_leave K.left_since K.opens_since (TakesTelling input.now result)
        agent.old agent.new keeper.old keeper.new (told_by (L.calls link.old) (J.calls jobs.old) clock files)
        (told_by (L.calls link.new) (J.calls jobs.new) clock files) (end_of result) }
    ensures ready { OnOk result (IsReady K.kept K.spent K.may_leave keeper.new) }
    ensures keepable { OnOk result (AreKeepable agent.new.kept) }
{
    let before = neighbours(agent);
    let step = match step(agent, input)? {
        Ok(step) => step,
        Err(fault) => return Ok(Some(fault)),
    };
    keep_entry(alloc, keeper, &step.kept)?;
    follow(alloc, agent, keeper, link, jobs, &before, &step)?;
    Ok(None)
}

/// Takes an input.
pub fn take<K: Keeper, L: Link, J: Spawner>(
    alloc: Global,
    agent: &mut Agent,
    keeper: &mut K,
    link: &mut L,
    jobs: &mut J,
    input: &Input,
) -> Result<(), NodeEnd>
    requires ready { IsReady K.kept K.spent K.may_leave keeper.old }
    requires keepable { AreKeepable agent.old.kept }
    requires fit { IsFitInput input.now }
    ensures does { (clock : Option (List ℕ)) (files : Option (List Probe)) →
        Does K.kept K.size K.faults K.moment K.may_leave K.left_since K.opens_since (Take input.now)
        agent.old agent.new keeper.old keeper.new (told_by (L.calls link.old) (J.calls jobs.old) clock files)
        (told_by (L.calls link.new) (J.calls jobs.new) clock files) (end_of result) }
    ensures ready { OnOk result (IsReady K.kept K.spent K.may_leave keeper.new) }
    ensures keepable { OnOk result (AreKeepable agent.new.kept) }
{
    match take_or_tell(alloc, agent, keeper, link, jobs, input) {
        Ok(_) => Ok(()),
        Err(end) => Err(end),
    }
}
