//! The definitions of a view, read from the input.
ghost use Rattle.std.specs.Prelude.{◌≡◌, IfErr, IfOk};
ghost use Rattle.std.specs.Result.{IsErrOf};
ghost use Rattle.outside.specs.Causes.{Rose};
ghost use Rattle.view_words.specs.Readings.{GivesDefs};
ghost use Rattle.view_words.specs.Unread.{IsUnread};
ghost use Rattle.view_words.specs.declared.reading.Unread.TheVariants.{SourceFailed as Failed_};

use base_types::LONGEST_INPUT;
use definition_texts::{NotRead, Refusal, read_definitions};
use outside::Source;
use std::alloc::Global;
use whole_io::{ReadError, read_whole};
use workload_defs::Workload;

/// Why no definitions were read.
#[derive(Clone, Copy)]
pub(crate) enum Unread {
    /// The input is no checked definitions.
    Refused(Refusal),
    /// The input passes its limit.
    TooLong,
    SourceFailed,
    NoMemory,
}

/// The checked definitions that the input is.
pub(crate) fn read_workload<I: Source>(alloc: Global, input: &mut I) -> Result<Workload, Unread>
    ensures read { IfOk result (λ w. GivesDefs w (I.stream input.old) (I.stream input.new)) }
    ensures why { IfErr result (λ why. IsUnread why (I.stream input.old) (I.stream input.new)) }
    ensures failed { IsErrOf result Failed_ → Rose (I.faults input.old) (I.faults input.new) }
{
    match read_whole(alloc, input, LONGEST_INPUT) {
        Ok(bytes) => match read_definitions(alloc, &bytes) {
            Ok(workload) => Ok(workload),
            Err(NotRead::Refused(refusal)) => Err(Unread::Refused(refusal)),
            Err(NotRead::NoMemory) => Err(Unread::NoMemory),
        },
        Err(ReadError::TooLong) => Err(Unread::TooLong),
        Err(ReadError::Fault) => Err(Unread::SourceFailed),
        Err(ReadError::NoMemory) => Err(Unread::NoMemory),
    }
}
