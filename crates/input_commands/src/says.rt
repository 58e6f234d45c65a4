//! What is said, and how the call ends.
ghost use Rattle.std.specs.Prelude.{◌≡◌, ◌≢◌, ◌≤◌, None};
ghost use Rattle.replies.specs.Sayings.{Says};
ghost use Rattle.replies.specs.declared.statuses.Status.TheVariants.{SinkFailed};
ghost use Rattle.input_commands.specs.declared.unsaid_replies.Silence.TheVariants as silence;

use crate::unsaid_replies::{Reply, Silence};
use network_world::World;
use outside::Sink;
use replies::{Status, say};

/// How a call of the program ends.
#[derive(Drop)]
pub struct Done {
    /// The exit status.
    pub status: u8,
    /// The world that the steps of a record made, where it was told.
    pub world: Option<World>,
}

/// The world that is handed back with a status: none with 5.
fn handed(world: Option<World>, status: u8) -> Option<World>
    ensures with_it { status ≢ 5 → result ≡ world }
    ensures none { status ≡ 5 → result ≡ None }
{
    if status == 5 { None } else { world }
}

/// Says a reply, and hands its world back where that was said.
pub(crate) fn answer<O: Sink>(out: &mut O, reply: Reply) -> Done
    requires { reply.status ≢ SinkFailed }
    ensures said { Says reply.status reply.text result.status (O.written out.old) (O.written out.new)
        (O.faults out.old) (O.faults out.new) }
    ensures with_it { result.status ≢ 5 → result.world ≡ reply.world }
    ensures alone { result.status ≡ 5 → result.world ≡ None }
    ensures no_fault { result.status ≢ 5 → O.faults out.new ≡ O.faults out.old }
    ensures later { O.faults out.old ≤ O.faults out.new }
{
    let (status, text, world) = reply.into_parts();
    let status = say(out, text.as_slice(), status);
    Done {
        status,
        world: handed(world, status),
    }
}

/// Nothing is said.
pub(crate) fn silent(why: Silence) -> Done
    ensures memory { why ≡ silence.NoMemory → result.status ≡ 9 }
    ensures source { why ≡ silence.SourceFailed → result.status ≡ 4 }
    ensures world { result.world ≡ None }
{
    let status = match why {
        Silence::SourceFailed => Status::SourceFailed,
        Silence::NoMemory => Status::NoMemory,
    };
    Done {
        status: status.number(),
        world: None,
    }
}
