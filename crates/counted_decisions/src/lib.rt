//! What a workstation may decide by counts of events: launch a job, release a stream, end one, carry one over.
//!
//! A `Sight` is what a decision sees: of the entries that were taken those that its counts take in. Each call answers the
//! definition of `model` that its clause names, in the view of these (`specs/Sights`), as `dependencies` answers it of
//! all that was taken. What a workstation tells of its own is that of all its events, since a decision counts them all. Of
//! the others' events the facts that others wait for are asked at the count (`counted_facts`). Of the plan it holds what the
//! counted events of workstation 0 brought. So a decision costs a look-up or some for each fact, and nothing is copied.
#![tactic(auto)]

mod carrying;
mod launches;
mod limits;
mod own;
mod predecessors;
mod releases;
mod sights;
mod supplies;
mod waits;
mod witnesses;

pub use carrying::is_carried;
pub use launches::is_ready;
pub use releases::{may_end, may_release};
pub use sights::Sight;
pub use witnesses::{names_end_witnesses, names_witnesses};
