//! Refusals, and how the faults of each step are told.
ghost use Rattle.std.specs.Prelude.{◌≡◌};
ghost use Rattle.definition_texts.specs.Told as spec;

use crate::kinds::RefusalKind;
use composer_lexer::LexFault;
use definition_faults::DefFault;

/// Where definitions are refused, and why. Lines are counted from 1.
#[derive(Clone, Copy)]
pub struct Refusal {
    pub line: u32,
    pub kind: RefusalKind,
}

/// Why bytes were not read as definitions.
#[derive(Clone, Copy)]
pub enum NotRead {
    /// They are refused.
    Refused(Refusal),
    /// There was no memory, or they have more bytes than a line or a place can tell.
    NoMemory,
}

/// A refusal at a line.
pub(crate) fn refused(line: u32, kind: RefusalKind) -> NotRead
    ensures { result ≡ spec.refused_at line kind }
{
    NotRead::Refused(Refusal { line, kind })
}

/// How a fault of the tokens is told.
pub(crate) fn lexed(fault: LexFault) -> NotRead
    ensures { result ≡ spec.lexed fault }
{
    match fault {
        LexFault::BadChar(line) => refused(line, RefusalKind::BadChar),
        LexFault::OpenText(line) => refused(line, RefusalKind::OpenText),
        LexFault::TooLong(line) => refused(line, RefusalKind::TooLong),
        LexFault::NoMemory => NotRead::NoMemory,
    }
}

/// How a fault of the definitions is told.
pub(crate) fn checked(fault: DefFault) -> NotRead
    ensures { result ≡ spec.checked fault }
{
    match fault {
        DefFault::Duplicate(line) => refused(line, RefusalKind::Duplicate),
        DefFault::UnknownName(line) => refused(line, RefusalKind::UnknownName),
        DefFault::OutOfRange(line) => refused(line, RefusalKind::OutOfRange),
        DefFault::ForeignResource(line) => refused(line, RefusalKind::ForeignResource),
        DefFault::FollowsCycle(line) => refused(line, RefusalKind::FollowsCycle),
        DefFault::Tree(line) => refused(line, RefusalKind::Tree),
        DefFault::NoMemory => NotRead::NoMemory,
    }
}
