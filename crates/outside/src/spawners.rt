// The processes of a node's jobs.
ghost use Rattle.std.specs.Prelude.{◌≡◌, ℕ, is_ok};
ghost use Rattle.outside.specs.Causes.{HasCause};
ghost use Rattle.outside.specs.Calls.{SpawnerCalls, Starts, Reports, Kills};

use crate::Failed;
use base_types::{JobNo, Work};

/// A process ended: the job and launch that it was started for, and its return code.
#[derive(Clone, Copy, PartialEq)]
pub struct End {
    pub job: JobNo,
    pub number: u32,
    pub rc: i32,
}

/// What starts the work of jobs, and tells when it ended. It tells the calls that were made of it, as a link does.
pub trait Spawner {
    /// The calls that it tells.
    ghost calls: { Self → SpawnerCalls };

    /// The count of its faults, up to 2^64 - 1: it rises in each call that fails, and in no other.
    ghost faults: { Self → ℕ };

    /// Starts the work of a job as the launch of this number.
    fn start(&mut self, job: JobNo, number: u32, work: &Work) -> Result<(), Failed>
        ensures calls { Starts (record { job = job; number = number; work = work.now; ok = is_ok result }) (calls self.old) (calls self.new) }
        ensures cause { HasCause (faults self.old) (faults self.new) result };

    /// The next process that ended, if one did.
    fn poll(&mut self) -> Result<Option<End>, Failed>
        ensures calls { Reports result (calls self.old) (calls self.new) }
        ensures cause { HasCause (faults self.old) (faults self.new) result };

    /// Asks the process of a launch to end.
    fn kill(&mut self, job: JobNo, number: u32)
        ensures calls { Kills job number (calls self.old) (calls self.new) }
        ensures same { faults self.new ≡ faults self.old };
}
