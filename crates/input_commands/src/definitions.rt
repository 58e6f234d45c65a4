//! Definitions: what their bytes call for.
ghost use Rattle.std.specs.Prelude.{◌≡◌, ◌≤◌, None, IfOk, length};
ghost use Rattle.input_commands.specs.Replies.{HasDay};
ghost use Rattle.input_commands.specs.Dues.{DefinitionsCallFor, IsReply};
ghost use Rattle.input_commands.specs.Lines.{outcome_status, outcome_text};

use crate::lines::{definitions_refused, limit};
use crate::replying::reply;
use crate::unsaid_replies::Reply;
use crate::wishes::{Outcome, Wish};
use base_types::{LimitName, NoMemory};
use replies::Status;
use std::alloc::Global;

/// What is said of what came of definitions.
fn said(alloc: Global, outcome: Outcome) -> Result<Reply, NoMemory>
    ensures status { IfOk result (λ r. r.status ≡ outcome_status outcome) }
    ensures text { IfOk result (λ r. r.text ≡ outcome_text outcome) }
    ensures world { IfOk result (λ r. r.world ≡ None) }
{
    match outcome {
        Outcome::Text(text) => Ok(Reply {
            status: Status::Success,
            text,
            world: None,
        }),
        Outcome::Refused(refusal) => definitions_refused(alloc, refusal),
        Outcome::TooMany(most) => limit(alloc, LimitName::Plan, most),
    }
}

/// What the bytes of an input call for, where they are wanted as definitions.
pub(crate) fn reply_to_definitions(
    alloc: Global,
    bytes: &[u8],
    wish: Wish,
) -> Result<Reply, NoMemory>
    requires few { length bytes.now ≤ 16777216 }
    requires day { HasDay wish }
    ensures { IfOk result (IsReply (DefinitionsCallFor wish bytes.now)) }
{
    said(alloc, reply(alloc, bytes, wish)?)
}
