//! Why a turn has no answer.
use base_types::NoMemory;

/// Why there is no body of a turn.
#[derive(Clone, Copy)]
pub enum TurnFault {
    /// Memory ran out.
    NoMemory,
}

impl From<NoMemory> for TurnFault {
    fn from(_error: NoMemory) -> TurnFault {
        TurnFault::NoMemory
    }
}
