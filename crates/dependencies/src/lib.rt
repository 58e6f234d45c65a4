//! What a workstation decides by the entries that a node holds: which dependencies are satisfied, which jobs are
//! ready and which of them is the best, which streams may be released or may end, which UNTIL is due, and which DEADLINE
//! makes an object late.
//!
//! Each call answers the definition of `model` that its clause names, in the view of the entries that the `Owners`
//! took: `model::specs::Dependencies`, `Readiness`, `OwnMembers` and `Lateness` have them. None of them takes memory. A number that
//! the catalogue lacks is not satisfied and not ready.
//!
//! `Readiness` is what keeps track of the best job, and of the streams that may be released or end, while entries come
//! in, with one law for all that do so. `Scan` is the plain one, which keeps nothing and walks at each question.
//!
//! What that costs: each fact of an `Owners` is a look-up or two. A dependency asks for a few facts, one on units for
//! some facts of each holder and each of its dependencies. `sat` asks for one dependency; `ready` and `may_release` for
//! those of one object, and `ready` for the open launches besides; `may_end` for the jobs of one stream; `until_due` and
//! `late_due` for those of each object of the workstation that has a time. The `best` of a `Scan` asks for all jobs of
//! the catalogue: it grows with them and their dependencies, and faster where many jobs are open, need units or have
//! limits. Its other answers ask for each stream of the workstation that waits, or is under way.
//!
//! The parts of these answers that the crates above ask for are public too: they take the document that counts for
//! its number, which `specs/Planned` says.
#![tactic(auto)]

mod candidates;
mod dues;
mod lates;
mod launches;
mod limits;
mod predecessors;
mod priorities;
mod releases;
mod scans;
mod supplies;
mod untils;
mod waits;
mod walks;

pub use candidates::{Readiness, Scan};
pub use lates::late_due;
pub use launches::ready;
pub use limits::{is_open, is_within_limit, is_within_workstation_limit, stream_limit};
pub use predecessors::lets_stream_end;
pub use priorities::{job_priority, stream_priority};
pub use releases::{may_end, may_end_in, may_release, may_release_in};
pub use untils::until_due;
pub use waits::{all_satisfied, is_met, sat};
pub use walks::{UnwaivedDeps, unwaived_deps};
