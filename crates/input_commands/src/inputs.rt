//! The input: read to its end, and answered by what is wanted of it.
ghost use Rattle.std.specs.Prelude.{◌≡◌, ◌≤◌, Ok, Err, IfOk, length};
ghost use Rattle.std.specs.Result.{IsErrOf};
ghost use Rattle.outside.specs.Causes.{Rose};
ghost use Rattle.input_commands.specs.Audits.{IsSoundText};
ghost use Rattle.input_commands.specs.Words.{FitsWanted};
ghost use Rattle.input_commands.specs.Dues.{CallsFor, ReadCallsFor, IsReply};
ghost use Rattle.input_commands.specs.declared.unsaid_replies.Silence.TheVariants.{SourceFailed as Failed_};
ghost use Rattle.replies.specs.declared.statuses.Status.TheVariants.{Success};
ghost use Rattle.input_commands.specs.declared.words.Telling.TheVariants as tells;
ghost use Rattle.input_commands.specs.declared.words.Wanted.TheVariants as wants;

use crate::audits::reply_to_history;
use crate::definitions::reply_to_definitions;
use crate::lines::limit;
use crate::records::reply_to_record;
use crate::unsaid_replies::{Reply, Silence};
use crate::words::Wanted;
use base_types::{LONGEST_INPUT, LimitName, NoMemory};
use outside::Source;
use std::alloc::Global;
use whole_io::{ReadError, read_whole};

/// What the bytes of an input call for.
fn reply_to_bytes(alloc: Global, bytes: &[u8], wanted: Wanted) -> Result<Reply, NoMemory>
    requires few { length bytes.now ≤ 16777216 }
    requires fits { FitsWanted wanted }
    ensures called { IfOk result (IsReply (CallsFor wanted bytes.now)) }
    ensures history { wanted ≡ wants.Night tells.History → IfOk result (λ r. r.status ≡ Success → IsSoundText r.text) }
{
    match wanted {
        Wanted::Night(telling) => reply_to_record(alloc, bytes, telling),
        Wanted::Definitions(wish) => reply_to_definitions(alloc, bytes, wish),
        Wanted::Audit => reply_to_history(alloc, bytes),
    }
}

/// Reads the input to its end, and answers what it calls for.
pub(crate) fn reply_to_input<I: Source>(
    alloc: Global,
    input: &mut I,
    wanted: Wanted,
) -> Result<Reply, Silence>
    requires { FitsWanted wanted }
    ensures called { IfOk result (IsReply (ReadCallsFor wanted (I.stream input.old) (I.stream input.new))) }
    ensures history { wanted ≡ wants.Night tells.History → IfOk result (λ r. r.status ≡ Success → IsSoundText r.text) }
    ensures failed { IsErrOf result Failed_ → Rose (I.faults input.old) (I.faults input.new) }
    ensures no_fault { (result ≡ Err Failed_ → ⊥) → I.faults input.new ≡ I.faults input.old }
    ensures later { I.faults input.old ≤ I.faults input.new }
{
    match read_whole(alloc, input, LONGEST_INPUT) {
        Ok(bytes) => Ok(reply_to_bytes(alloc, &bytes, wanted)?),
        Err(ReadError::TooLong) => Ok(limit(alloc, LimitName::Input, LONGEST_INPUT)?),
        Err(ReadError::Fault) => Err(Silence::SourceFailed),
        Err(ReadError::NoMemory) => Err(Silence::NoMemory),
    }
}
