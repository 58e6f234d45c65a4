//! What holds of every index.
ghost use Rattle.ready_index.specs.Changes.{EntriesKeepOthers};
ghost use Rattle.ready_index.specs.Standing.{FirstReadyIsBest};

/// The first candidate of an index that is ready is the best job.
pub fn first_ready_is_best()
    ensures { FirstReadyIsBest }
{}

/// An entry leaves as they are: the jobs of each workstation and their order, which jobs are in play but for one that
/// it launches, and what each job waits for but for what the entry tells.
pub fn entries_keep_others()
    ensures { EntriesKeepOthers }
{}
