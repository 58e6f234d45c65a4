//! Why a text has no tokens.
ghost use Rattle.std.specs.Prelude.{◌≡◌};
ghost use Rattle.composer_lexer.specs.declared.faults.LexFault.TheVariants.{NoMemory as NoRoom};
ghost use Rattle.composer_lexer.specs.Tokens as spec;

use crate::fronts::Trouble;
use base_types::NoMemory;
use thiserror::Error;

/// Why a text has no tokens, with the line of the first such place, counted from 1.
#[derive(Clone, Copy, Debug, Error)]
pub enum LexFault {
    /// A character stands there that only texts and comments may have.
    #[error("line {0}: a character that stands in texts and comments alone")]
    BadChar(u32),
    /// A text begins there that its line does not close.
    #[error("line {0}: a text without its closing quote")]
    OpenText(u32),
    /// A text or a word begins there that has more than 4,096 bytes.
    #[error("line {0}: a text or a word of more than 4,096 bytes")]
    TooLong(u32),
    /// There was no memory for the tokens, or the text has more bytes than a place can tell.
    #[error("memory ran out")]
    NoMemory,
}

impl From<NoMemory> for LexFault {
    ghost from_gives = { λ _ fault. fault ≡ NoRoom };

    fn from(_error: NoMemory) -> LexFault {
        LexFault::NoMemory
    }
}

/// The fault that trouble on a line is.
pub(crate) fn fault_at(trouble: Trouble, line: u32) -> LexFault
    ensures { result ≡ spec.fault_at trouble line }
{
    match trouble {
        Trouble::Char => LexFault::BadChar(line),
        Trouble::Open => LexFault::OpenText(line),
        Trouble::Long => LexFault::TooLong(line),
    }
}
