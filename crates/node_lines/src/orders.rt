//! The lines of a client that are inputs of the node: commands, and the plan of a day.
ghost use Rattle.std.specs.Prelude.{ℕ, ◌≡◌, IfOk, List, OnOk, Option};
ghost use Rattle.conman_syntax.specs.Fit.{IsFitLine};
ghost use Rattle.model.specs.Fit.{AreFit, IsFitCmd, IsFitDraft};
ghost use Rattle.model.specs.Types.{Input as given, Next, Typed};
ghost use Rattle.file_watch.specs.Asked.{Probe};
ghost use Rattle.node_inputs.specs.Keeping.{IsReady};
ghost use Rattle.node_inputs.specs.Doings.{Does, end_of};
ghost use Rattle.node_lines.specs.Lines as spec;
ghost use Rattle.node_lines.specs.Lines.{HasFitPlans, Order, PlanDay, Serve};
ghost use Rattle.node_inputs.specs.Stepping.{AreKeepable};
ghost use Rattle.node_inputs.specs.Tellings.{told_by};

use crate::replies::{refuse, refuse_for, say, step_refusal};
use agent_core::Agent;
use base_types::{Cmd, Feed, Input, Local, NoMemory, StreamDrafts, Text, Ws};
use calendars::LAST_DAY;
use conman_orders::{ResolveFault, resolve};
use conman_syntax::Line;
use node_inputs::{NodeEnd, take_or_tell};
use node_replies::{Refusal, kept, planned};
use outside::{Keeper, Link, Spawner};
use plan_builder::{PlanFault, day_docs};
use std::alloc::Global;
use workload_defs::Workload;

/// `kept A>W PLACE`.
fn kept_text(alloc: Global, agent: &Agent, to: Ws) -> Result<Text, NoMemory>
    ensures { IfOk result (λ text. text ≡ spec.kept_text to agent.now) }
{
    let me = agent.me();
    let place = agent.holds(Feed::Orders(me, to));
    kept(alloc, agent.defined().net(), me, to, place)
}

/// `plan RUN`.
fn plan_text(alloc: Global, agent: &Agent) -> Result<Text, NoMemory>
    ensures { IfOk result (λ text. text ≡ spec.plan_text agent.now) }
{
    planned(alloc, agent.owners().run())
}

/// Types the command of a line at the node, and answers at which place of its feed it was kept.
pub(crate) fn order<K: Keeper, L: Link, J: Spawner>(
    alloc: Global,
    agent: &mut Agent,
    keeper: &mut K,
    link: &mut L,
    jobs: &mut J,
    line: &Line,
) -> Result<(), NodeEnd>
    requires ready { IsReady K.kept K.spent K.may_leave keeper.old }
    requires keepable { AreKeepable agent.old.kept }
    requires fit { (most : ℕ) × IsFitLine most line.now }
    ensures does { (clock : Option (List ℕ)) (files : Option (List Probe)) →
        Does K.kept K.size K.faults K.moment K.may_leave K.left_since K.opens_since (Order line.now)
        agent.old agent.new keeper.old keeper.new (told_by (L.calls link.old) (J.calls jobs.old) clock files)
        (told_by (L.calls link.new) (J.calls jobs.new) clock files) (end_of result) }
    ensures ready { OnOk result (IsReady K.kept K.spent K.may_leave keeper.new) }
    ensures keepable { OnOk result (AreKeepable agent.new.kept) }
{
    match resolve(alloc, agent.net(), agent.owners(), agent.me(), line) {
        Ok((to, cmd)) => type_it(alloc, agent, keeper, link, jobs, to, cmd),
        Err(ResolveFault::UnknownName(_)) => refuse(alloc, link, Refusal::UnknownName),
        Err(ResolveFault::NotACommand) => Ok(()),
        Err(ResolveFault::NoMemory) => Err(NodeEnd::NoMemory),
    }
}

/// Types a command at the node for a workstation.
fn type_it<K: Keeper, L: Link, J: Spawner>(
    alloc: Global,
    agent: &mut Agent,
    keeper: &mut K,
    link: &mut L,
    jobs: &mut J,
    to: Ws,
    cmd: Cmd,
) -> Result<(), NodeEnd>
    requires ready { IsReady K.kept K.spent K.may_leave keeper.old }
    requires keepable { AreKeepable agent.old.kept }
    requires fit { IsFitCmd cmd }
    ensures does { (clock : Option (List ℕ)) (files : Option (List Probe)) →
        Does K.kept K.size K.faults K.moment K.may_leave K.left_since K.opens_since
        (Serve (Input.Local (Typed to cmd)) (spec.kept_text to))
        agent.old agent.new keeper.old keeper.new (told_by (L.calls link.old) (J.calls jobs.old) clock files)
        (told_by (L.calls link.new) (J.calls jobs.new) clock files) (end_of result) }
    ensures ready { OnOk result (IsReady K.kept K.spent K.may_leave keeper.new) }
    ensures keepable { OnOk result (AreKeepable agent.new.kept) }
{
    match take_or_tell(
        alloc,
        agent,
        keeper,
        link,
        jobs,
        &Input::Local(Local::Typed(to, cmd)),
    )? {
        None => {
            let text = kept_text(alloc, agent, to)?;
            say(alloc, link, text)
        }
        Some(fault) => refuse_for(alloc, link, step_refusal(&fault)),
    }
}

/// Makes the plan of the next day of drafts, and answers its run.
fn make_plan<K: Keeper, L: Link, J: Spawner>(
    alloc: Global,
    agent: &mut Agent,
    keeper: &mut K,
    link: &mut L,
    jobs: &mut J,
    drafts: StreamDrafts,
) -> Result<(), NodeEnd>
    requires ready { IsReady K.kept K.spent K.may_leave keeper.old }
    requires keepable { AreKeepable agent.old.kept }
    requires fit { AreFit IsFitDraft drafts }
    ensures does { (clock : Option (List ℕ)) (files : Option (List Probe)) →
        Does K.kept K.size K.faults K.moment K.may_leave K.left_since K.opens_since
        (Serve (Input.Local (Next drafts)) spec.plan_text)
        agent.old agent.new keeper.old keeper.new (told_by (L.calls link.old) (J.calls jobs.old) clock files)
        (told_by (L.calls link.new) (J.calls jobs.new) clock files) (end_of result) }
    ensures ready { OnOk result (IsReady K.kept K.spent K.may_leave keeper.new) }
    ensures keepable { OnOk result (AreKeepable agent.new.kept) }
{
    match take_or_tell(
        alloc,
        agent,
        keeper,
        link,
        jobs,
        &Input::Local(Local::Next(drafts)),
    )? {
        None => {
            let text = plan_text(alloc, agent)?;
            say(alloc, link, text)
        }
        Some(fault) => refuse_for(alloc, link, step_refusal(&fault)),
    }
}

/// Makes the plan of a day, and answers its run. Another node than the master refuses before the day is built.
pub(crate) fn plan_day<K: Keeper, L: Link, J: Spawner>(
    alloc: Global,
    agent: &mut Agent,
    workload: &Workload,
    keeper: &mut K,
    link: &mut L,
    jobs: &mut J,
    day: u32,
) -> Result<(), NodeEnd>
    requires ready { IsReady K.kept K.spent K.may_leave keeper.old }
    requires keepable { AreKeepable agent.old.kept }
    requires plans { HasFitPlans workload.now }
    ensures does { (clock : Option (List ℕ)) (files : Option (List Probe)) →
        Does K.kept K.size K.faults K.moment K.may_leave K.left_since K.opens_since (PlanDay workload.now day)
        agent.old agent.new keeper.old keeper.new (told_by (L.calls link.old) (J.calls jobs.old) clock files)
        (told_by (L.calls link.new) (J.calls jobs.new) clock files) (end_of result) }
    ensures ready { OnOk result (IsReady K.kept K.spent K.may_leave keeper.new) }
    ensures keepable { OnOk result (AreKeepable agent.new.kept) }
{
    if agent.me().0 != 0 {
        return refuse(alloc, link, Refusal::NotMaster);
    }
    if day > LAST_DAY {
        return refuse(alloc, link, Refusal::OutOfRange);
    }
    match day_docs(alloc, workload, day) {
        Ok(drafts) => make_plan(alloc, agent, keeper, link, jobs, drafts),
        Err(PlanFault::Limit(_)) => refuse(alloc, link, Refusal::Limit),
        Err(PlanFault::OutOfRange(_)) => refuse(alloc, link, Refusal::OutOfRange),
        Err(PlanFault::NoMemory) => Err(NodeEnd::NoMemory),
    }
}
