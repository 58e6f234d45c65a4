//! The first fault of definitions that follow the grammar.
//!
//! `specs/Faults` has the faults of definitions, in tables: what each kind of item is tested for, and at which line. Bad
//! conditions stand there by the grammar of conditions, and circles of FOLLOWS by `follow_circles`. `first_fault` gives
//! the fault at the lowest line, and of several there the first in the order of the kinds.
#![tactic(auto)]

mod chains;
mod clauses;
mod conditions;
mod entries;
mod faults;
mod first;
mod graphs;
mod items;
mod kinds;
mod masters;
mod ons;
mod ranges;
mod stations;
mod streams;

pub use faults::DefFault;
pub use first::first_fault;
pub use kinds::{Fault, Kind};
