//! What a step gives out is carried out.
ghost use Rattle.std.specs.Prelude.{ℕ, ◌<◌, ◌≡◌, [], IfErr, IfOk, List, None, OnOk, Option, Some, option_map};
ghost use Rattle.model.specs.Types.{Mail};
ghost use Rattle.file_watch.specs.Asked.{Probe};
ghost use Rattle.mail_frames.specs.Spelling.{frame_bytes};
ghost use Rattle.outside.specs.Calls.{LinkCalls, SpawnerCalls};
ghost use Rattle.node_inputs.specs.declared.ends.NodeEnd.TheVariants.{NoMemory as NoRoom};
ghost use Rattle.node_inputs.specs.Doings.{DoesOutside, end_of};
ghost use Rattle.node_inputs.specs.Inputs as spec;
ghost use Rattle.node_inputs.specs.Inputs.{Carry, CarryOut, SendIt, StartIt, carried_with, frame_of, nothing_carried};
ghost use Rattle.node_inputs.specs.Stepping.{AreKeepable, AreWithin, IsWithin, TellLost};
ghost use Rattle.node_inputs.specs.Tellings.{told_by};

use crate::ends::NodeEnd;
use crate::links::{Flags, is_flagged};
use agent_core::Agent;
use base_types::{
    Bytes, Copied, Entry, Feed, JobNo, MOST_WORKSTATIONS, NoMemory, Out, Packet, Work, Ws,
};
use entry_codec::write_entry;
use mail_frames::{Frame, write_frame};
use outside::{Link, Spawner};
use std::alloc::Global;

/// What has become of a step's outputs: the workstations to which a send failed, and the job that was to start, with
/// whether it did.
#[derive(Drop)]
pub(crate) struct Carried {
    pub(crate) lost: Flags,
    pub(crate) started: Option<(JobNo, bool)>,
}

impl Carried {
    /// Nothing was carried out yet.
    fn new() -> Carried
        ensures lost { TellLost result.lost [] }
        ensures started { result.started ≡ None }
    {
        Carried {
            lost: [false; MOST_WORKSTATIONS],
            started: None,
        }
    }
}

/// Starts the work of a job.
fn start<J: Spawner>(jobs: &mut J, job: JobNo, number: u32, work: &Work, carried: &mut Carried)
    ensures lost { carried.new.lost ≡ carried.old.lost }
    ensures does { (all : List ℕ) (link : LinkCalls) (clock : Option (List ℕ)) (files : Option (List Probe)) →
        DoesOutside (StartIt job number work.now) (carried_with all carried.old.started) (carried_with all carried.new.started)
        (told_by link (J.calls jobs.old) clock files) (told_by link (J.calls jobs.new) clock files) None }
{
    let ok = jobs.start(job, number, work).is_ok();
    carried.started = Some((job, ok));
}

/// The bytes of the frame of a packet: mail brings the entry that it names. None where the node does not hold it.
fn packet_bytes(alloc: Global, agent: &Agent, packet: &Packet) -> Result<Option<Bytes>, NoMemory>
    requires keepable { AreKeepable agent.now.kept }
    ensures { IfOk result (λ o. o ≡ option_map frame_bytes (frame_of agent.now packet.now)) }
{
    match packet {
        Packet::Mail(feed, place) => mail_bytes(alloc, agent, feed, *place),
        Packet::Ack(feed, count) => Ok(Some(write_frame(alloc, &Frame::Ack(*feed, *count))?)),
    }
}

/// The bytes of the mail that brings the entry at a place of a feed.
fn mail_bytes(
    alloc: Global,
    agent: &Agent,
    feed: &Feed,
    place: u32,
) -> Result<Option<Bytes>, NoMemory>
    requires keepable { AreKeepable agent.now.kept }
    ensures { IfOk result (λ o. o ≡ option_map frame_bytes (frame_of agent.now (Mail feed.now place))) }
{
    match agent.owners().entry(*feed, place) {
        None => Ok(None),
        Some(body) => {
            let entry = Entry {
                feed: *feed,
                place,
                body: body.copy()?,
            };
            let bytes = write_entry(alloc, &entry)?;
            Ok(Some(write_frame(alloc, &Frame::Mail(bytes))?))
        }
    }
}

/// Sends a packet. To a workstation to which a send failed nothing more is sent.
fn send<L: Link>(
    alloc: Global,
    agent: &Agent,
    link: &mut L,
    to: Ws,
    packet: &Packet,
    carried: &mut Carried,
) -> Result<(), NodeEnd>
    requires keepable { AreKeepable agent.now.kept }
    requires within { to < 256 }
    ensures started { carried.new.started ≡ carried.old.started }
    ensures does { (all : List ℕ) (jobs : SpawnerCalls) (clock : Option (List ℕ)) (files : Option (List Probe)) →
        TellLost carried.old.lost all → (later : List ℕ) × TellLost carried.new.lost later
        × DoesOutside (SendIt agent.now to packet.now) (carried_with all carried.old.started)
        (carried_with later carried.old.started) (told_by (L.calls link.old) jobs clock files)
        (told_by (L.calls link.new) jobs clock files) (end_of result) }
    ensures ends { IfErr result (λ why. why ≡ NoRoom) }
{
    if is_flagged(&carried.lost, to.0) {
        return Ok(());
    }
    let Some(bytes) = packet_bytes(alloc, agent, packet)? else {
        return Ok(());
    };
    if link.send(to, bytes.as_slice()).is_err() {
        carried.lost[usize::from(to.0)] = true;
    }
    Ok(())
}

/// Carries one output out.
fn carry<L: Link, J: Spawner>(
    alloc: Global,
    agent: &Agent,
    link: &mut L,
    jobs: &mut J,
    out: &Out,
    carried: &mut Carried,
) -> Result<(), NodeEnd>
    requires keepable { AreKeepable agent.now.kept }
    requires within { IsWithin 256 out.now }
    ensures does { (all : List ℕ) (clock : Option (List ℕ)) (files : Option (List Probe)) →
        TellLost carried.old.lost all → (later : List ℕ) × TellLost carried.new.lost later
        × DoesOutside (CarryOut agent.now out.now) (carried_with all carried.old.started)
        (carried_with later carried.new.started) (told_by (L.calls link.old) (J.calls jobs.old) clock files)
        (told_by (L.calls link.new) (J.calls jobs.new) clock files) (end_of result) }
    ensures ends { IfErr result (λ why. why ≡ NoRoom) }
{
    match out {
        Out::Launch(job, number, work) => {
            start(jobs, *job, *number, work, carried);
            Ok(())
        }
        Out::Kill(job, number) => {
            jobs.kill(*job, *number);
            Ok(())
        }
        Out::Send(to, packet) => send(alloc, agent, link, *to, packet, carried),
    }
}

/// Carries all outputs out, in order. Only want of memory for a frame ends that early.
pub(crate) fn carry_all<L: Link, J: Spawner>(
    alloc: Global,
    agent: &Agent,
    link: &mut L,
    jobs: &mut J,
    outs: &[Out],
) -> Result<Carried, NodeEnd>
    requires keepable { AreKeepable agent.now.kept }
    requires within { AreWithin 256 outs.now }
    ensures all { IfOk result (λ carried. (clock : Option (List ℕ)) (files : Option (List Probe)) →
        (lost : List ℕ) × TellLost carried.lost lost
        × DoesOutside (Carry agent.now outs.now) nothing_carried (carried_with lost carried.started)
        (told_by (L.calls link.old) (J.calls jobs.old) clock files)
        (told_by (L.calls link.new) (J.calls jobs.new) clock files) None) }
    ensures some { IfErr result (λ why. (why ≡ NoRoom)
        × ((clock : Option (List ℕ)) (files : Option (List Probe)) → (so_far : spec.Carried)
        × DoesOutside (Carry agent.now outs.now) nothing_carried so_far
        (told_by (L.calls link.old) (J.calls jobs.old) clock files)
        (told_by (L.calls link.new) (J.calls jobs.new) clock files) (Some NoRoom))) }
{
    let mut carried = Carried::new();
    for out in outs {
        carry(alloc, agent, link, jobs, out, &mut carried)?;
    }
    Ok(carried)
}
