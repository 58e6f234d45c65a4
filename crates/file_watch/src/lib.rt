//! The files that jobs and streams of a node wait for: which of them a node looks for next, and how it looks.
//!
//! A node looks for one file at a time. `next_probe` tells for which dependency, from the one that was looked for last:
//! round a circle, so that each has its turn. What is due and what comes next is `specs/Probes`, the circle
//! `specs/Circle`. A `Prober` looks; what it tells of its calls is `specs/Asked`. The laws say that nothing is passed
//! over, that what a prober finds can be told, and that no job is launched before its files are.
#![tactic(auto)]

mod circle;
mod laws;
mod probers;
mod probes;

pub use laws::{files_come_before_launches, next_is_soonest, probes_may_be_told};
pub use probers::Prober;
pub use probes::{next_probe, path_at};
