//! Turn after turn.
ghost use Rattle.std.specs.Prelude.{ℕ, ◌≡◌, List, Ok, OnOk, Option, Some};
ghost use Rattle.file_watch.specs.Asked.{Probe};
ghost use Rattle.file_watch.specs.Circle.{DepPlace};
ghost use Rattle.model.specs.Sessions.{restarted};
ghost use Rattle.agent_core.specs.Nodes.{session_in};
ghost use Rattle.node_inputs.specs.Keeping.{IsReady};
ghost use Rattle.node_inputs.specs.Doings.{Does, end_of};
ghost use Rattle.node_lines.specs.Lines.{HasFitPlans};
ghost use Rattle.node_loop.specs.Runs as spec;
ghost use Rattle.node_loop.specs.Runs.{Advise, EndOf, Found, Probing, Run, Running, TurnOf, running, running_with};
ghost use Rattle.node_inputs.specs.Stepping.{AreKeepable};
ghost use Rattle.node_loop.specs.Heard.{AreHeard, Heard};
ghost use Rattle.node_inputs.specs.Tellings.{told_by};

use crate::arrivals::arrive;
use crate::streams::Streams;
use agent_core::Agent;
use base_types::{Input, Local, Obj};
use file_watch::{Prober, next_probe, path_at};
use node_inputs::{NodeEnd, take};
use outside::{Clock, End, Failed, Keeper, Link, Spawner};
use recovery_watch::advice;
use std::alloc::Global;
use workload_defs::Workload;

/// Runs a node for so many turns at most, and tells why it ended.
///
/// A turn takes one reading of the clock, one arrival, one end of a process, one probe where a file is looked for, the
/// advice of the node as it then stands, and then the turn with that reading. The keeper has not failed, what the agent
/// holds can be written down, nothing is live, linked or acknowledged, and the plans of the definitions are fit.
///
/// The run is one trace: what the node did, what was kept, and what each object tells, before the end and at it. After
/// another end than `Shutdown` and `TurnsSpent` the agent is to be restored anew from what the keeper keeps.
pub fn run_node<K: Keeper, L: Link, J: Spawner, C: Clock, F: Prober>(
    alloc: Global,
    agent: &mut Agent,
    workload: &Workload,
    keeper: &mut K,
    link: &mut L,
    jobs: &mut J,
    clock: &mut C,
    turns: u32,
    files: &mut F,
) -> NodeEnd
    requires fresh { session_in agent.old ≡ restarted }
    requires keepable { AreKeepable agent.old.kept }
    requires ready { IsReady K.kept K.spent K.may_leave keeper.old }
    requires plans { HasFitPlans workload.now }
    ensures run { (after : Running) × (after.node ≡ agent.new)
        × Does K.kept K.size K.faults K.moment K.may_leave K.left_since K.opens_since (Run workload.now turns)
        (running agent.old) after keeper.old keeper.new
        (told_by (L.calls link.old) (J.calls jobs.old) (C.readings clock.old) (F.asked files.old))
        (told_by (L.calls link.new) (J.calls jobs.new) (C.readings clock.new) (F.asked files.new)) (Some result) }
{
    let mut streams = Streams::new(alloc);
    let mut asked = None;
    for _turn in 0..turns {
        match turn(
            alloc,
            agent,
            workload,
            &mut streams,
            keeper,
            link,
            jobs,
            clock,
            &mut asked,
            files,
        ) {
            Ok(()) => {}
            Err(end) => return end,
        }
    }
    NodeEnd::TurnsSpent
}

/// Takes one turn.
fn turn<K: Keeper, L: Link, J: Spawner, C: Clock, F: Prober>(
    alloc: Global,
    agent: &mut Agent,
    workload: &Workload,
    streams: &mut Streams,
    keeper: &mut K,
    link: &mut L,
    jobs: &mut J,
    clock: &mut C,
    asked: &mut Option<(Obj, u16)>,
    files: &mut F,
) -> Result<(), NodeEnd>
    requires heard { (heard : ℕ → Heard) × AreHeard streams.old heard }
    requires ready { IsReady K.kept K.spent K.may_leave keeper.old }
    requires keepable { AreKeepable agent.old.kept }
    requires plans { HasFitPlans workload.now }
    ensures does { (heard : ℕ → Heard) → AreHeard streams.old heard →
        (later : ℕ → Heard) × OnOk result (AreHeard streams.new later)
        × Does K.kept K.size K.faults K.moment K.may_leave K.left_since K.opens_since
        (λ old trace end new. TurnOf workload.now old trace end new)
        (running_with agent.old heard asked.old) (running_with agent.new later asked.new) keeper.old keeper.new
        (told_by (L.calls link.old) (J.calls jobs.old) (C.readings clock.old) (F.asked files.old))
        (told_by (L.calls link.new) (J.calls jobs.new) (C.readings clock.new) (F.asked files.new)) (end_of result) }
    ensures heard { OnOk result ((heard : ℕ → Heard) × AreHeard streams.new heard) }
    ensures ready { OnOk result (IsReady K.kept K.spent K.may_leave keeper.new) }
    ensures keepable { OnOk result (AreKeepable agent.new.kept) }
{
    let reading = clock.now();
    arrive(alloc, agent, workload, streams, keeper, link, jobs)?;
    report(alloc, agent, keeper, link, jobs)?;
    probe(alloc, agent, keeper, link, jobs, asked, files)?;
    advise(alloc, agent, keeper, link, jobs)?;
    take(
        alloc,
        agent,
        keeper,
        link,
        jobs,
        &Input::Local(Local::Turn(reading)),
    )
}

/// Whether the process is that of a live launch.
fn is_live(agent: &Agent, end: &End) -> bool
    ensures { result ≡ spec.is_live agent.now end.now }
{
    for live in agent.live().as_slice() {
        if live.job == end.job {
            return live.number == end.number;
        }
    }
    false
}

/// Takes one end of a process. What is no live launch's gives nothing, and so does a failed poll.
fn report<K: Keeper, L: Link, J: Spawner>(
    alloc: Global,
    agent: &mut Agent,
    keeper: &mut K,
    link: &mut L,
    jobs: &mut J,
) -> Result<(), NodeEnd>
    requires ready { IsReady K.kept K.spent K.may_leave keeper.old }
    requires keepable { AreKeepable agent.old.kept }
    ensures does { (clock : Option (List ℕ)) (files : Option (List Probe)) →
        Does K.kept K.size K.faults K.moment K.may_leave K.left_since K.opens_since
        (λ old trace end new. spec.Reports old trace end new)
        agent.old agent.new keeper.old keeper.new (told_by (L.calls link.old) (J.calls jobs.old) clock files)
        (told_by (L.calls link.new) (J.calls jobs.new) clock files) (end_of result) }
    ensures ready { OnOk result (IsReady K.kept K.spent K.may_leave keeper.new) }
    ensures keepable { OnOk result (AreKeepable agent.new.kept) }
{
    match jobs.poll() {
        Ok(Some(end)) => take_end(alloc, agent, keeper, link, jobs, &end),
        Ok(None) => Ok(()),
        Err(Failed) => Ok(()),
    }
}

/// Takes the end of a process, where it is that of a live launch.
fn take_end<K: Keeper, L: Link, J: Spawner>(
    alloc: Global,
    agent: &mut Agent,
    keeper: &mut K,
    link: &mut L,
    jobs: &mut J,
    end: &End,
) -> Result<(), NodeEnd>
    requires ready { IsReady K.kept K.spent K.may_leave keeper.old }
    requires keepable { AreKeepable agent.old.kept }
    ensures does { (clock : Option (List ℕ)) (files : Option (List Probe)) →
        Does K.kept K.size K.faults K.moment K.may_leave K.left_since K.opens_since (EndOf (Ok (Some end.now)))
        agent.old agent.new keeper.old keeper.new (told_by (L.calls link.old) (J.calls jobs.old) clock files)
        (told_by (L.calls link.new) (J.calls jobs.new) clock files) (end_of result) }
    ensures ready { OnOk result (IsReady K.kept K.spent K.may_leave keeper.new) }
    ensures keepable { OnOk result (AreKeepable agent.new.kept) }
{
    if is_live(agent, end) {
        let input = Input::Local(Local::Ended(end.job, end.rc));
        take(alloc, agent, keeper, link, jobs, &input)
    } else {
        Ok(())
    }
}

/// Looks for one file, where one is due.
fn probe<K: Keeper, L: Link, J: Spawner, F: Prober>(
    alloc: Global,
    agent: &mut Agent,
    keeper: &mut K,
    link: &mut L,
    jobs: &mut J,
    asked: &mut Option<(Obj, u16)>,
    files: &mut F,
) -> Result<(), NodeEnd>
    requires ready { IsReady K.kept K.spent K.may_leave keeper.old }
    requires keepable { AreKeepable agent.old.kept }
    ensures does { (heard : ℕ → Heard) (clock : Option (List ℕ)) →
        Does K.kept K.size K.faults K.moment K.may_leave K.left_since K.opens_since Probing
        (running_with agent.old heard asked.old) (running_with agent.new heard asked.new) keeper.old keeper.new
        (told_by (L.calls link.old) (J.calls jobs.old) clock (F.asked files.old))
        (told_by (L.calls link.new) (J.calls jobs.new) clock (F.asked files.new)) (end_of result) }
    ensures ready { OnOk result (IsReady K.kept K.spent K.may_leave keeper.new) }
    ensures keepable { OnOk result (AreKeepable agent.new.kept) }
{
    let last = *asked;
    let Some((object, i)) = next_probe(agent.net(), agent.owners(), agent.me(), last) else {
        return Ok(());
    };
    let found = match path_at(agent.owners(), &object, i) {
        Some(path) => files.seen(path),
        None => return Ok(()),
    };
    *asked = Some((object, i));
    tell_found(alloc, agent, keeper, link, jobs, &object, i, found)
}

/// Tells the node that the file of a dependency is there, where it was found.
fn tell_found<K: Keeper, L: Link, J: Spawner>(
    alloc: Global,
    agent: &mut Agent,
    keeper: &mut K,
    link: &mut L,
    jobs: &mut J,
    object: &Obj,
    i: u16,
    found: Result<bool, Failed>,
) -> Result<(), NodeEnd>
    requires ready { IsReady K.kept K.spent K.may_leave keeper.old }
    requires keepable { AreKeepable agent.old.kept }
    ensures does { (clock : Option (List ℕ)) (files : Option (List Probe)) →
        Does K.kept K.size K.faults K.moment K.may_leave K.left_since K.opens_since (Found (object.now, i) found)
        agent.old agent.new keeper.old keeper.new (told_by (L.calls link.old) (J.calls jobs.old) clock files)
        (told_by (L.calls link.new) (J.calls jobs.new) clock files) (end_of result) }
    ensures ready { OnOk result (IsReady K.kept K.spent K.may_leave keeper.new) }
    ensures keepable { OnOk result (AreKeepable agent.new.kept) }
{
    match found {
        Ok(true) => {
            let input = Input::Local(Local::Fulfil(*object, i));
            take(alloc, agent, keeper, link, jobs, &input)
        }
        Ok(false) => Ok(()),
        Err(Failed) => Ok(()),
    }
}

/// Types what the node advises itself.
fn advise<K: Keeper, L: Link, J: Spawner>(
    alloc: Global,
    agent: &mut Agent,
    keeper: &mut K,
    link: &mut L,
    jobs: &mut J,
) -> Result<(), NodeEnd>
    requires ready { IsReady K.kept K.spent K.may_leave keeper.old }
    requires keepable { AreKeepable agent.old.kept }
    ensures does { (clock : Option (List ℕ)) (files : Option (List Probe)) →
        Does K.kept K.size K.faults K.moment K.may_leave K.left_since K.opens_since Advise
        agent.old agent.new keeper.old keeper.new (told_by (L.calls link.old) (J.calls jobs.old) clock files)
        (told_by (L.calls link.new) (J.calls jobs.new) clock files) (end_of result) }
    ensures ready { OnOk result (IsReady K.kept K.spent K.may_leave keeper.new) }
    ensures keepable { OnOk result (AreKeepable agent.new.kept) }
{
    let me = agent.me();
    match advice(agent.net(), agent.owners(), me) {
        Some(cmd) => take(
            alloc,
            agent,
            keeper,
            link,
            jobs,
            &Input::Local(Local::Typed(me, cmd)),
        ),
        None => Ok(()),
    }
}
