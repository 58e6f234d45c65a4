//! What a node advises itself for a job that ended badly: to confirm it or to rerun it, as its recovery says.
//!
//! `advice` tells one command at a time, which the node then types for itself; what it is is `specs/Advice`. None is
//! told while an order of the node to itself waits for its answer, and no advice reruns a job that was rerun before.
#![tactic(auto)]

mod advices;
mod laws;

pub use advices::advice;
pub use laws::reruns_are_advised_once;
