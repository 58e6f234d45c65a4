//! Why a day has no drafts.
ghost use Rattle.std.specs.Prelude.{◌≡◌};
ghost use Rattle.plan_builder.specs.declared.faults.PlanFault.TheVariants.{NoMemory as NoRoom};

use base_types::NoMemory;

/// Why a day has no drafts, in the order in which the causes are tested.
#[derive(Clone, Copy)]
pub enum PlanFault {
    /// More streams run on the day than this, 4,096, or they have more jobs than this, 16,384.
    Limit(u32),
    /// A time of a stream that runs on the day has no moment. The number is the lowest line of such a time.
    OutOfRange(u32),
    /// There was no memory.
    NoMemory,
}

impl From<NoMemory> for PlanFault {
    ghost from_gives = { λ _ fault. fault ≡ NoRoom };

    fn from(_error: NoMemory) -> PlanFault {
        PlanFault::NoMemory
    }
}
