//! The states of jobs that are still to be launched.
ghost use Rattle.std.specs.Prelude.{◌≡◌};
ghost use Rattle.symphony_view.specs.Words.{told_job};
ghost use Rattle.waiting_lines.specs.Answers as spec;

use symphony_view::JobState;

/// Whether a job of this state is still to be launched.
pub(crate) fn is_waiting_state(state: JobState) -> bool
    ensures { result ≡ spec.is_waiting_state (told_job state) }
{
    match state {
        JobState::Hold | JobState::Fence | JobState::Ready => true,
        _ => false,
    }
}
