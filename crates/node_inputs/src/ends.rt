//! Why a run ended.
ghost use Rattle.std.specs.Prelude.{◌≡◌};
ghost use Rattle.node_inputs.specs.declared.ends.NodeEnd.TheVariants.{NoMemory as NoRoom};

use base_types::{LimitName, NoMemory};

/// Why a run ended.
#[derive(Clone, Copy)]
pub enum NodeEnd {
    /// A client asked for it, and was answered.
    Shutdown,
    /// All turns were taken.
    TurnsSpent,
    /// The keeper's disk failed.
    DiskFault,
    /// There is no room for an entry in the file, or no place for it in its feed.
    Limit(LimitName),
    NoMemory,
}

impl From<NoMemory> for NodeEnd {
    ghost from_gives = { λ _ end. end ≡ NoRoom };

    fn from(_error: NoMemory) -> NodeEnd {
        NodeEnd::NoMemory
    }
}
