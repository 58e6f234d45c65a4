//! What comes over the links.
ghost use Rattle.std.specs.Prelude.{ℕ, ◌≡◌, IfOk, IfSome, List, OnOk, Option};
ghost use Rattle.std.specs.List.{All};
ghost use Rattle.file_watch.specs.Asked.{Probe};
ghost use Rattle.file_watch.specs.Circle.{DepPlace};
ghost use Rattle.model.specs.Fit.{IsFitInput};
ghost use Rattle.node_inputs.specs.Keeping.{IsReady};
ghost use Rattle.node_inputs.specs.Doings.{Does, end_of};
ghost use Rattle.node_lines.specs.Lines.{HasFitPlans};
ghost use Rattle.node_loop.specs.Runs.{Anew, Arrive, Come, Hear, running_with};
ghost use Rattle.node_inputs.specs.Stepping.{AreKeepable};
ghost use Rattle.node_loop.specs.Heard.{AreHeard, Heard};
ghost use Rattle.node_loop.specs.Frames as spec;
ghost use Rattle.node_loop.specs.Frames.{Frames};
ghost use Rattle.mail_frames.specs.Spelling.{IsFrame};
ghost use Rattle.node_inputs.specs.Tellings.{told_by};

use crate::streams::Streams;
use agent_core::Agent;
use base_types::{Input, Local, NoMemory, Ws};
use entry_codec::{EntryFault, read_entry};
use mail_frames::Frame;
use node_inputs::{NodeEnd, lose, take};
use node_lines::listen;
use outside::{Arrival, Keeper, Link, Spawner};
use std::alloc::Global;
use workload_defs::Workload;

/// The input of a frame of a workstation. None for a bad frame: mail that is no entry, a command, a reply.
fn input_of(alloc: Global, x: Ws, frame: &Frame) -> Result<Option<Input>, NoMemory>
    requires short { IsFrame frame.now }
    ensures input { IfOk result (λ input. input ≡ spec.input_of x frame.now) }
    ensures fit { IfOk result (λ input. IfSome input IsFitInput) }
{
    match frame {
        Frame::Mail(bytes) => match read_entry(alloc, bytes.as_slice()) {
            Ok(entry) => Ok(Some(Input::Mail(x, entry))),
            Err(EntryFault::NoMemory) => Err(NoMemory),
            Err(_) => Ok(None),
        },
        Frame::Ack(feed, count) => Ok(Some(Input::Ack(x, *feed, *count))),
        Frame::Command(_) | Frame::Reply(_) => Ok(None),
    }
}

/// Takes the frames of one arrival, each an input, up to a bad one. With a bad one, or where the stream went wrong
/// behind them, the link is lost.
fn take_frames<K: Keeper, L: Link, J: Spawner>(
    alloc: Global,
    agent: &mut Agent,
    keeper: &mut K,
    link: &mut L,
    jobs: &mut J,
    x: Ws,
    is_bad: bool,
    frames: &[Frame],
) -> Result<(), NodeEnd>
    requires ready { IsReady K.kept K.spent K.may_leave keeper.old }
    requires keepable { AreKeepable agent.old.kept }
    requires frames { All IsFrame frames.now }
    ensures does { (clock : Option (List ℕ)) (files : Option (List Probe)) →
        Does K.kept K.size K.faults K.moment K.may_leave K.left_since K.opens_since (Frames x is_bad frames.now)
        agent.old agent.new keeper.old keeper.new (told_by (L.calls link.old) (J.calls jobs.old) clock files)
        (told_by (L.calls link.new) (J.calls jobs.new) clock files) (end_of result) }
    ensures ready { OnOk result (IsReady K.kept K.spent K.may_leave keeper.new) }
    ensures keepable { OnOk result (AreKeepable agent.new.kept) }
{
    for frame in frames {
        match input_of(alloc, x, frame)? {
            Some(input) => take(alloc, agent, keeper, link, jobs, &input)?,
            None => return lose(alloc, agent, keeper, link, x),
        }
    }
    if is_bad {
        lose(alloc, agent, keeper, link, x)
    } else {
        Ok(())
    }
}

/// Takes bytes of a workstation.
fn hear<K: Keeper, L: Link, J: Spawner>(
    alloc: Global,
    agent: &mut Agent,
    streams: &mut Streams,
    keeper: &mut K,
    link: &mut L,
    jobs: &mut J,
    x: Ws,
    bytes: &[u8],
) -> Result<(), NodeEnd>
    requires heard { (heard : ℕ → Heard) × AreHeard streams.old heard }
    requires ready { IsReady K.kept K.spent K.may_leave keeper.old }
    requires keepable { AreKeepable agent.old.kept }
    ensures does { (heard : ℕ → Heard) (asked : Option DepPlace) (clock : Option (List ℕ)) (files : Option (List Probe)) →
        AreHeard streams.old heard → (later : ℕ → Heard) × OnOk result (AreHeard streams.new later)
        × Does K.kept K.size K.faults K.moment K.may_leave K.left_since K.opens_since (Hear x bytes.now)
        (running_with agent.old heard asked) (running_with agent.new later asked) keeper.old keeper.new
        (told_by (L.calls link.old) (J.calls jobs.old) clock files)
        (told_by (L.calls link.new) (J.calls jobs.new) clock files) (end_of result) }
    ensures heard { OnOk result ((heard : ℕ → Heard) × AreHeard streams.new heard) }
    ensures ready { OnOk result (IsReady K.kept K.spent K.may_leave keeper.new) }
    ensures keepable { OnOk result (AreKeepable agent.new.kept) }
{
    let fed = streams.feed(x, bytes)?;
    take_frames(
        alloc,
        agent,
        keeper,
        link,
        jobs,
        x,
        fed.bad.is_some(),
        fed.frames.as_slice(),
    )
}

/// A link began or ended: the stream of its workstation begins anew, and the node is told.
fn turn_link<K: Keeper, L: Link, J: Spawner>(
    alloc: Global,
    agent: &mut Agent,
    streams: &mut Streams,
    keeper: &mut K,
    link: &mut L,
    jobs: &mut J,
    x: Ws,
    input: &Input,
) -> Result<(), NodeEnd>
    requires heard { (heard : ℕ → Heard) × AreHeard streams.old heard }
    requires ready { IsReady K.kept K.spent K.may_leave keeper.old }
    requires keepable { AreKeepable agent.old.kept }
    requires fit { IsFitInput input.now }
    ensures does { (heard : ℕ → Heard) (asked : Option DepPlace) (clock : Option (List ℕ)) (files : Option (List Probe)) →
        AreHeard streams.old heard → (later : ℕ → Heard) × OnOk result (AreHeard streams.new later)
        × Does K.kept K.size K.faults K.moment K.may_leave K.left_since K.opens_since (Anew x input.now)
        (running_with agent.old heard asked) (running_with agent.new later asked) keeper.old keeper.new
        (told_by (L.calls link.old) (J.calls jobs.old) clock files)
        (told_by (L.calls link.new) (J.calls jobs.new) clock files) (end_of result) }
    ensures heard { OnOk result ((heard : ℕ → Heard) × AreHeard streams.new heard) }
    ensures ready { OnOk result (IsReady K.kept K.spent K.may_leave keeper.new) }
    ensures keepable { OnOk result (AreKeepable agent.new.kept) }
{
    streams.begin(x);
    take(alloc, agent, keeper, link, jobs, input)
}

/// Takes what came over the links.
fn take_arrival<K: Keeper, L: Link, J: Spawner>(
    alloc: Global,
    agent: &mut Agent,
    workload: &Workload,
    streams: &mut Streams,
    keeper: &mut K,
    link: &mut L,
    jobs: &mut J,
    arrival: &Arrival,
) -> Result<(), NodeEnd>
    requires heard { (heard : ℕ → Heard) × AreHeard streams.old heard }
    requires ready { IsReady K.kept K.spent K.may_leave keeper.old }
    requires keepable { AreKeepable agent.old.kept }
    requires plans { HasFitPlans workload.now }
    ensures does { (heard : ℕ → Heard) (asked : Option DepPlace) (clock : Option (List ℕ)) (files : Option (List Probe)) →
        AreHeard streams.old heard → (later : ℕ → Heard) × OnOk result (AreHeard streams.new later)
        × Does K.kept K.size K.faults K.moment K.may_leave K.left_since K.opens_since (Arrive workload.now arrival.now)
        (running_with agent.old heard asked) (running_with agent.new later asked) keeper.old keeper.new
        (told_by (L.calls link.old) (J.calls jobs.old) clock files)
        (told_by (L.calls link.new) (J.calls jobs.new) clock files) (end_of result) }
    ensures heard { OnOk result ((heard : ℕ → Heard) × AreHeard streams.new heard) }
    ensures ready { OnOk result (IsReady K.kept K.spent K.may_leave keeper.new) }
    ensures keepable { OnOk result (AreKeepable agent.new.kept) }
{
    match arrival {
        Arrival::Bytes(x, bytes) => {
            hear(
                alloc,
                agent,
                streams,
                keeper,
                link,
                jobs,
                *x,
                bytes.as_slice(),
            )
        }
        Arrival::Up(x) => {
            let input = Input::Local(Local::Linked(*x));
            turn_link(alloc, agent, streams, keeper, link, jobs, *x, &input)
        }
        Arrival::Down(x) => {
            let input = Input::Local(Local::Unlinked(*x));
            turn_link(alloc, agent, streams, keeper, link, jobs, *x, &input)
        }
        Arrival::Client(bytes) => {
            listen(alloc, agent, workload, keeper, link, jobs, bytes.as_slice())
        }
        Arrival::Nothing => Ok(()),
        Arrival::NoMemory => Err(NodeEnd::NoMemory),
    }
}

/// Takes one arrival.
pub(crate) fn arrive<K: Keeper, L: Link, J: Spawner>(
    alloc: Global,
    agent: &mut Agent,
    workload: &Workload,
    streams: &mut Streams,
    keeper: &mut K,
    link: &mut L,
    jobs: &mut J,
) -> Result<(), NodeEnd>
    requires heard { (heard : ℕ → Heard) × AreHeard streams.old heard }
    requires ready { IsReady K.kept K.spent K.may_leave keeper.old }
    requires keepable { AreKeepable agent.old.kept }
    requires plans { HasFitPlans workload.now }
    ensures does { (heard : ℕ → Heard) (asked : Option DepPlace) (clock : Option (List ℕ)) (files : Option (List Probe)) →
        AreHeard streams.old heard → (later : ℕ → Heard) × OnOk result (AreHeard streams.new later)
        × Does K.kept K.size K.faults K.moment K.may_leave K.left_since K.opens_since (Come workload.now)
        (running_with agent.old heard asked) (running_with agent.new later asked) keeper.old keeper.new
        (told_by (L.calls link.old) (J.calls jobs.old) clock files)
        (told_by (L.calls link.new) (J.calls jobs.new) clock files) (end_of result) }
    ensures heard { OnOk result ((heard : ℕ → Heard) × AreHeard streams.new heard) }
    ensures ready { OnOk result (IsReady K.kept K.spent K.may_leave keeper.new) }
    ensures keepable { OnOk result (AreKeepable agent.new.kept) }
{
    let arrival = link.poll();
    take_arrival(
        alloc, agent, workload, streams, keeper, link, jobs, &arrival,
    )
}
