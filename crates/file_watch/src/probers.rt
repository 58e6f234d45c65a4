//! Who looks for files.
ghost use Rattle.std.specs.Prelude.{ℕ, List};
ghost use Rattle.std.specs.declared.option.Option.{Option};
ghost use Rattle.outside.specs.Calls.{AddsOrEnds};
ghost use Rattle.outside.specs.Causes.{HasCause};
ghost use Rattle.file_watch.specs.Asked.{Probe};

use base_types::Text;
use outside::Failed;

/// Looks whether files are there.
pub trait Prober {
    /// The calls, where the prober tells them: the paths, each with its answer.
    ghost asked: { Self → Option (List Probe) };

    /// The count of its faults, up to 2^64 - 1: it rises in each call that fails, and in no other.
    ghost faults: { Self → ℕ };

    /// Whether there is a file at the path.
    fn seen(&mut self, path: &Text) -> Result<bool, Failed>
        ensures asked { AddsOrEnds (record { path = path.now; answer = result }) (asked self.old) (asked self.new) }
        ensures cause { HasCause (faults self.old) (faults self.new) result };
}
