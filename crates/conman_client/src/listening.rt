//! A client listens for the reply of a node.
ghost use Rattle.std.specs.Prelude.{◌≡◌, ℕ, List, [], ◌∷◌, ◌++◌, IfOk, OnErr, None};
ghost use Rattle.std.specs.Option.{option_copied};
ghost use Rattle.outside.specs.Calls.{Polls as PollTells};
ghost use Rattle.outside.specs.declared.links.Arrival.{Arrival as Came};
ghost use Rattle.conman_client.specs.Replies.{first_reply};
ghost use Rattle.conman_client.specs.Asks.{Tells, Listens, polled};
ghost use Rattle.conman_client.specs.Hearing.{Heard};

use crate::ends::AskEnd;
use base_types::{Copied, NoMemory, Text, Ws};
use mail_frames::{Decoder, Frame, what_was_written_is_read};
use outside::{Arrival, Link};
use std::alloc::Global;

/// How often a link is polled at most.
const POLLS: u32 = 600;

/// Polls the link until the first reply of the node is whole.
pub(crate) fn listen<L: Link>(alloc: Global, link: &mut L, ws: Ws) -> Result<Text, AskEnd>
    ensures run { (arrivals : List Came) × Tells (polled arrivals) (L.calls link.old) (L.calls link.new)
        × Listens ws arrivals result }
    ensures same { L.faults link.new ≡ L.faults link.old }
{
    let mut decoder = fresh(alloc);
    'polls: for _poll in 0..POLLS {
        let arrival = next(link)?;
        if let Some(text) = hear(&mut decoder, ws, &arrival)? {
            return Ok(text);
        }
    }
    Err(AskEnd::NoAnswer)
}

/// A decoder that has taken nothing of any workstation.
fn fresh(alloc: Global) -> Decoder
    ensures { (ws : ℕ) → Heard result ws [] None }
{
    what_was_written_is_read();
    Decoder::new(alloc)
}

/// What came next. Where there is no memory for it, it was not told.
fn next<L: Link>(link: &mut L) -> Result<Arrival, NoMemory>
    ensures told { IfOk result (λ arrival. PollTells arrival (L.calls link.old) (L.calls link.new)) }
    ensures err { OnErr result (L.calls link.new ≡ L.calls link.old) }
    ensures same { L.faults link.new ≡ L.faults link.old }
{
    match link.poll() {
        Arrival::NoMemory => Err(NoMemory),
        arrival => Ok(arrival),
    }
}

/// The first reply of the workstation, where it is whole with this arrival.
fn hear(decoder: &mut Decoder, ws: Ws, arrival: &Arrival) -> Result<Option<Text>, NoMemory>
    ensures { IfOk result (λ reply. (arrivals : List Came) → Heard decoder.old ws arrivals None →
        Heard decoder.new ws (arrivals ++ arrival.now ∷ []) reply) }
{
    let Arrival::Bytes(from, bytes) = arrival else {
        return Ok(None);
    };
    if *from != ws {
        return Ok(None);
    }
    let fed = decoder.feed(bytes.as_slice())?;
    match reply_among(fed.frames.as_slice()) {
        Some(text) => Ok(Some(text.copy()?)),
        None => Ok(None),
    }
}

/// The text of the first reply among frames.
fn reply_among(frames: &[Frame]) -> Option<&Text>
    ensures { option_copied result ≡ first_reply frames.now }
{
    for frame in frames {
        if let Frame::Reply(text) = frame {
            return Some(text);
        }
    }
    None
}
