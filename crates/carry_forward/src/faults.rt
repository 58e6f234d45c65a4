//! Why there is no plan.
ghost use Rattle.std.specs.Prelude.{◌≡◌};
ghost use Rattle.carry_forward.specs.declared.faults.CarryFault.TheVariants.{NoMemory as NoRoom};

use base_types::NoMemory;

/// Why there is no plan of a new day, or no document of a submitted stream.
#[derive(Clone, Copy, Debug)]
pub enum CarryFault {
    /// The run would pass 4,294,967,295.
    RunsSpent,
    /// The number of a stream or of a job would pass 4,294,967,295.
    NumbersSpent,
    /// The plan would have more than so many streams, 4,096, or more than so many jobs, 16,384.
    PlanFull(u32),
    /// Memory ran out.
    NoMemory,
}

impl From<NoMemory> for CarryFault {
    ghost from_gives = { λ _ fault. fault ≡ NoRoom };

    fn from(_error: NoMemory) -> CarryFault {
        CarryFault::NoMemory
    }
}
