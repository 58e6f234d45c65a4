//! Which job is the best, and which streams may be released or end, without a walk over all of them.
//!
//! An `Index` keeps track of one workstation while a node takes entries, by the law of `dependencies::Readiness`. It knows
//! the candidates for the best job, in the order in which the best job is chosen, and for each job that waits one thing
//! that it waits for. `best` asks the candidates in their order whether they are ready, and answers the first that is. Of
//! the streams that wait for their release it knows the same, by their numbers, and of those under way a set that has
//! each that may end.
//!
//! The invariant is `specs/Standing::IsIndexOf`: each job of the workstation that is in play is a candidate, or watches
//! something that it waits for. A job is in play where it is due, its stream is a member, and neither of them is
//! cancelled. It waits for the release of its stream, and for each job and stream that it follows by a dependency that
//! is not waived and not satisfied. So every ready job is a candidate, while a candidate need not be ready. So it is with
//! the own members that are neither released nor cancelled (`specs/Releases`), which wait for what they follow.
//!
//! What an entry asks of an index is `specs/Changes::change_by`, and `entries_keep_others` says that all else stays.
//! - The end of a job, the end of a stream and the release of a stream: who watches that is looked at anew, and whether
//!   its stream may end.
//! - A launch: the job is no candidate any more, unless it is due still.
//! - A plan, an added stream, a command that was obeyed, and an UNTIL that cancels: the index is made anew, in a walk
//!   over the catalogue. So a waiver, a priority, a rerun, a confirm and a cancelling count at once.
//! - Every other entry: nothing. A clock, a reply, a file, units of a resource, a fence, a limit and a stop change
//!   which candidates are ready, and not which jobs are candidates.
//!
//! What that costs: `best`, `lowest_to_release` and `lowest_to_end` ask candidates alone, and each other entry touches
//! who watches what it tells. Making the index anew asks for each job of the catalogue and each stream of the
//! workstation, in a night as often as an operator's command is obeyed and a plan comes.
#![tactic(auto)]

mod candidates;
mod changes;
mod ends;
mod index;
mod jobs;
mod laws;
mod releases;
mod stream_sets;
mod targets;
mod waits;
mod watches;

pub use index::Index;
pub use laws::{entries_keep_others, first_ready_is_best};
