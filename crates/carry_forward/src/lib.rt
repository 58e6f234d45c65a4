//! The plan of a new day, and the document of a submitted stream.
//!
//! A plan carries the unfinished members of the last one that the network's option takes: the marked ones, none or all.
//! It adds the drafts as documents, with numbers after those of the catalogue, and with each FOLLOWS resolved by its
//! names. `next_plan` gives exactly the plan of `model::specs::NewPlan`, and `numbered` the document of a submitted
//! stream there. When there is none is said by `specs/Faults`. Names are looked up in an index, so that no plan takes a
//! walk for each of them.
#![tactic(auto)]

mod carried_streams;
mod documents;
mod faults;
mod names;
mod numbers;
mod plans;
mod rooms;

pub use faults::CarryFault;
pub use plans::{next_plan, numbered};
