//! The small rules that the decisions of a workstation and of a new plan stand on, each asked of the entries that were
//! taken: whether a job is done with for those that wait for it, whether a priority passes the fence, which of two ready
//! jobs comes first, which order is answered next, what is told of an open launch that has no process, which streams a
//! plan carries, and at which counts it cuts.
//!
//! Each call answers the definition of `model` that its clause names, in the view of these entries. They stand apart
//! from what puts them together, so that each is judged by itself: a wrong rule is refused here.
#![tactic(auto)]

mod launches;
mod plans;
mod ranks;
mod turns;

pub use launches::{is_good_or_cancelled, passes_fence};
pub use plans::{cut, is_carried};
pub use ranks::{Rank, comes_before};
pub use turns::{lost, next_order};
