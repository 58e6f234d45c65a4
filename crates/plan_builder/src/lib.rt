//! The drafts of a day: the streams of checked definitions that run on it, with their moments.
//!
//! `day_docs` gives them in order of definition, each with its jobs and dependencies. Which drafts these are is said in
//! `specs/Drafts`, their dependencies in `specs/Dependencies`, and when there are none in `specs/Limits`.
#![tactic(auto)]

mod clauses;
mod day_drafts;
mod dependencies;
mod drafts;
mod faults;
mod limits;
mod times;
mod works;

pub use day_drafts::day_docs;
pub use faults::PlanFault;
