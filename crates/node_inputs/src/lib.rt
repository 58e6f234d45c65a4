//! One input of a running node: its step, the entry that is kept, and what follows.
//!
//! The entry of a step is kept before anything of that step goes out, so that a stop lets out nothing that was not kept.
//! Then links to new neighbours are asked for, the outputs are carried out in order, the start of a launch is told to
//! the node, and each link to which a send failed is closed. What may happen is an action over one trace, `specs/Actions`
//! and `specs/Inputs`; that a stretch of a run has one trace, by which the node acts, the keeper keeps and the other
//! objects tell, is `specs/Doings`.
//!
//! `keep` writes an entry as its bytes and hands them to a keeper. What is told of a run is one trace, `specs/Traces`, of
//! what was kept and of all calls of the outside. What a stretch of a run keeps, and what a stop at any moment of it
//! leaves, is `specs/Keeping`; stretches are put together by the lemmas of `proofs/Joining`.
#![tactic(auto)]

mod ends;
mod inputs;
mod keeping;
mod links;
mod outputs;
mod steps;

pub use ends::NodeEnd;
pub use inputs::{take, take_or_tell};
pub use keeping::keep;
pub use links::lose;
