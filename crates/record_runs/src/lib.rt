//! The run of a record over real nodes.
//!
//! `run_script` takes the lines of a record one after the other, from a world in which nothing has happened. Which steps
//! of the world a line is, fixed in the world that stands before it, is the table `specs/Lines`; the run of the lines is
//! `specs/Runs`; why a line cannot be taken, and what is told of that, is `specs/Causes`. The world that is handed back
//! stands for the one that the run reaches. A line that cannot be taken ends the run, and its number is told with what is
//! told of its cause. Memory that runs out ends the call with `NoMemory`, which alone is free.
//!
//! What that costs: each line costs what its steps cost. The drafts of a plan are moved out of the record. `reap` keeps
//! the numbers of the jobs that live, and `flow` keeps nothing.
#![tactic(auto)]

mod acts;
mod days;
mod lines;
mod orders;
mod plans;
mod runs;
mod steps;
mod stops;

pub use days::{DayFault, DayPlans};
pub use runs::{RunEnd, run_days, run_script};
pub use stops::Stop;
