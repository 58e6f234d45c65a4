//! Why a step of the world is refused.
ghost use Rattle.std.specs.Prelude.{◌≡◌};
ghost use Rattle.network_world.specs.Refusals.{refused_by};
ghost use Rattle.network_world.specs.declared.refusals.StepRefused.TheVariants.{NoMemory as NoRoom};

use agent_core::StepFault;
use base_types::{LimitName, NoMemory};

/// Why a step of the world is refused, in the order in which the causes are tested. The world is then as it was.
#[derive(Clone, Copy, Debug)]
pub enum StepRefused {
    /// No packet of this number was sent on this way.
    NoPacket,
    /// The number of steps, of packets or of kept bytes had reached its limit before the step.
    Limit(LimitName),
    /// The node refuses the input. Its want of memory is `NoMemory`, and never told here.
    Step(StepFault),
    /// Memory ran out.
    NoMemory,
}

impl From<NoMemory> for StepRefused {
    ghost from_gives = { λ _ fault. fault ≡ NoRoom };

    fn from(_error: NoMemory) -> StepRefused {
        StepRefused::NoMemory
    }
}

/// The refusal that a node's fault is.
pub(crate) fn refusal(fault: StepFault) -> StepRefused
    ensures { result ≡ refused_by fault }
{
    match fault {
        StepFault::NoMemory => StepRefused::NoMemory,
        _ => StepRefused::Step(fault),
    }
}
