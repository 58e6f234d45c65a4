//! What a client is answered.
ghost use Rattle.std.specs.Prelude.{ℕ, ◌≡◌, ◌≤◌, IfOk, List, Option, length};
ghost use Rattle.agent_core.specs.Nodes.{NodeState};
ghost use Rattle.file_watch.specs.Asked.{Probe};
ghost use Rattle.outside.specs.Calls.{SpawnerCalls};
ghost use Rattle.node_replies.specs.Replies.{refused_line};
ghost use Rattle.node_inputs.specs.Doings.{DoesOutside, end_of};
ghost use Rattle.node_lines.specs.Lines as spec;
ghost use Rattle.node_lines.specs.Lines.{Refuse, Say};
ghost use Rattle.node_inputs.specs.Tellings.{told_by};

use agent_core::StepFault;
use base_types::{NoMemory, Text};
use carry_forward::CarryFault;
use mail_frames::{Frame, write_frame};
use node_inputs::NodeEnd;
use node_replies::{Refusal, refused};
use outside::Link;
use std::alloc::Global;

/// How many bytes a reply has at most.
const LONGEST: usize = 1_048_576;

/// The text that is replied: one that is too long says so.
fn reply_text(alloc: Global, text: Text) -> Result<Text, NoMemory>
    ensures text { IfOk result (λ t. t ≡ spec.reply_text text) }
    ensures short { IfOk result (λ t. length t ≤ 1048576) }
{
    if text.len() > LONGEST {
        refused(alloc, Refusal::TooLong)
    } else {
        Ok(text)
    }
}

/// Answers the client. A reply that fails changes nothing.
pub(crate) fn say<L: Link>(alloc: Global, link: &mut L, text: Text) -> Result<(), NodeEnd>
    ensures { (node : NodeState) (jobs : SpawnerCalls) (clock : Option (List ℕ)) (files : Option (List Probe)) →
        DoesOutside (Say text) node node (told_by (L.calls link.old) jobs clock files)
        (told_by (L.calls link.new) jobs clock files) (end_of result) }
{
    let text = reply_text(alloc, text)?;
    let bytes = write_frame(alloc, &Frame::Reply(text))?;
    let _failed = link.reply(bytes.as_slice());
    Ok(())
}

/// Answers the client that its line is refused.
pub(crate) fn refuse<L: Link>(alloc: Global, link: &mut L, refusal: Refusal) -> Result<(), NodeEnd>
    ensures { (node : NodeState) (jobs : SpawnerCalls) (clock : Option (List ℕ)) (files : Option (List Probe)) →
        DoesOutside (Say (refused_line refusal)) node node (told_by (L.calls link.old) jobs clock files)
        (told_by (L.calls link.new) jobs clock files) (end_of result) }
{
    say(alloc, link, refused(alloc, refusal)?)
}

/// Answers the client why its line is refused, where that is told.
pub(crate) fn refuse_for<L: Link>(
    alloc: Global,
    link: &mut L,
    why: Option<Refusal>,
) -> Result<(), NodeEnd>
    ensures { (node : NodeState) (jobs : SpawnerCalls) (clock : Option (List ℕ)) (files : Option (List Probe)) →
        DoesOutside (Refuse why) node node (told_by (L.calls link.old) jobs clock files)
        (told_by (L.calls link.new) jobs clock files) (end_of result) }
{
    match why {
        None => Ok(()),
        Some(refusal) => refuse(alloc, link, refusal),
    }
}

/// Why a step is refused. None for the faults that end the run.
pub(crate) fn step_refusal(fault: &StepFault) -> Option<Refusal>
    ensures { result ≡ spec.step_refusal fault.now }
{
    match fault {
        StepFault::NotInNetwork => Some(Refusal::NotInNetwork),
        StepFault::NotNeighbour => Some(Refusal::NotNeighbour),
        StepFault::NotMaster => Some(Refusal::NotMaster),
        StepFault::NoProcess => Some(Refusal::NoProcess),
        StepFault::NoDep => Some(Refusal::NoDep),
        StepFault::PlaceSpent => None,
        StepFault::Carry(CarryFault::RunsSpent) => Some(Refusal::RunsSpent),
        StepFault::Carry(CarryFault::NumbersSpent) => Some(Refusal::NumbersSpent),
        StepFault::Carry(CarryFault::PlanFull(_)) => Some(Refusal::PlanFull),
        StepFault::Carry(CarryFault::NoMemory) => None,
        StepFault::TooLong => Some(Refusal::TooLong),
        StepFault::NoMemory => None,
    }
}
