//! A command line is asked of a node.
ghost use Rattle.std.specs.Prelude.{◌≡◌, ◌≤◌, ◌⊎◌, [], ◌∷◌, length, Err, IfOk};
ghost use Rattle.mail_frames.specs.Spelling.{frame_bytes};
ghost use Rattle.mail_frames.specs.declared.frames.Frame.TheVariants.{Command};
ghost use Rattle.outside.specs.Causes.{Rose};
ghost use Rattle.conman_client.specs.declared.ends.AskEnd.TheVariants.{NoAnswer};
ghost use Rattle.conman_client.specs.Asks.{Made, Tells, Counts, IsAsk, IsUnanswered};

use crate::ends::AskEnd;
use crate::listening::listen;
use base_types::{Bytes, Copied, Items, NoMemory, Peer, Peers, Text};
use mail_frames::{Frame, write_frame};
use outside::Link;
use std::alloc::Global;

/// Asks a node a command line of at most 4,096 bytes, as a client, and waits for the text of its reply.
///
/// The link is begun once, and the line is sent once, in one frame. Then it is polled until the first reply of the node
/// is whole, at most 600 times. There is no answer exactly where the link could not begin, or could not send, or 600
/// polls gave no whole reply. Where memory runs out the link was not called yet, or it is being polled.
pub fn ask<L: Link>(
    alloc: Global,
    link: &mut L,
    peer: &Peer,
    command: &Text,
) -> Result<Text, AskEnd>
    requires { length command.now ≤ 4096 }
    // What was called, and what is answered by that.
    ensures run { (made : Made) × Tells made (L.calls link.old) (L.calls link.new)
        × Counts made (L.faults link.old) (L.faults link.new) × IsAsk peer.now command.now made result }
    // Why there is no answer.
    ensures cause { result ≡ Err NoAnswer →
        Rose (L.faults link.old) (L.faults link.new) ⊎ IsUnanswered peer.now.ws (L.calls link.old) (L.calls link.new) }
    ensures later { L.faults link.old ≤ L.faults link.new }
{
    let peers = alone(alloc, peer)?;
    let frame = in_a_frame(alloc, command)?;
    link.begin(None, Some(peer.ws), &peers)?;
    link.send(peer.ws, frame.as_slice())?;
    listen(alloc, link, peer.ws)
}

/// The peer alone.
fn alone(alloc: Global, peer: &Peer) -> Result<Peers, NoMemory>
    ensures { IfOk result (λ peers. peers ≡ peer.now ∷ []) }
{
    let mut peers = Items::new(alloc);
    peers.push(peer.copy()?)?;
    Ok(peers)
}

/// The bytes of a frame with the command.
fn in_a_frame(alloc: Global, command: &Text) -> Result<Bytes, NoMemory>
    requires { length command.now ≤ 4096 }
    ensures { IfOk result (λ bytes. bytes ≡ frame_bytes (Command command.now)) }
{
    write_frame(alloc, &Frame::Command(command.copy()?))
}
