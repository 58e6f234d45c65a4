//! A text is said with a status.
ghost use Rattle.std.specs.Prelude.{◌≡◌, ◌≢◌, ◌≤◌};
ghost use Rattle.replies.specs.Sayings.{Says};
ghost use Rattle.replies.specs.declared.statuses.Status.TheVariants.{SinkFailed};

use crate::statuses::Status;
use outside::Sink;
use whole_io::write_whole;

/// Writes the text of a status, and ends with the status, or with 5 where the sink failed.
pub fn say<O: Sink>(out: &mut O, text: &[u8], status: Status) -> u8
    requires { status ≢ SinkFailed }
    ensures said { Says status text.now result (O.written out.old) (O.written out.new)
        (O.faults out.old) (O.faults out.new) }
    ensures no_fault { result ≢ 5 → O.faults out.new ≡ O.faults out.old }
    ensures later { O.faults out.old ≤ O.faults out.new }
{
    match write_whole(out, text) {
        Ok(()) => status.number(),
        Err(_) => Status::SinkFailed.number(),
    }
}
