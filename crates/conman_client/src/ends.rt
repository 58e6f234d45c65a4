//! Why an ask has no reply.
ghost use Rattle.std.specs.Prelude.{◌≡◌};
ghost use Rattle.conman_client.specs.declared.ends.AskEnd.TheVariants.{NoAnswer as Unanswered, NoMemory as NoRoom};

use base_types::NoMemory;
use outside::Failed;

/// Why an ask has no reply.
#[derive(Clone, Copy)]
pub enum AskEnd {
    /// The link failed, or no reply was whole after 600 polls.
    NoAnswer,
    NoMemory,
}

impl From<NoMemory> for AskEnd {
    ghost from_gives = { λ _ end. end ≡ NoRoom };

    fn from(_error: NoMemory) -> AskEnd {
        AskEnd::NoMemory
    }
}

impl From<Failed> for AskEnd {
    ghost from_gives = { λ _ end. end ≡ Unanswered };

    fn from(_error: Failed) -> AskEnd {
        AskEnd::NoAnswer
    }
}
