//! Why a text's tokens are no definitions.
use thiserror::Error;

/// Why tokens are no definitions, with the line of the first token that nothing in the grammar has behind those before it.
/// At the end of the text that is its last line. Lines are counted from 1.
#[derive(Clone, Copy, Debug, Error)]
pub enum SyntaxFault {
    /// Something else is expected there.
    #[error("line {0}: something else is expected")]
    Expected(u32),
    /// The full language has that there, and this one leaves it out.
    #[error("line {0}: left out of the language")]
    LeftOut(u32),
    /// The word is not built yet. No word is, and so it is never answered.
    #[error("line {0}: not built")]
    NotBuilt(u32),
    /// There was no memory for the definitions, or the text has more lines than can be told.
    #[error("memory ran out")]
    NoMemory,
}
