//! Which mail is taken, and what goes back for it.
//!
//! `accepts` is that of `model::specs::NewEntry`. Both stand apart from what a node keeps of its neighbours, so that
//! each is judged by itself: a wrong rule is refused here.
#![tactic(auto)]

mod accepting;

pub use accepting::{accepts, acknowledgement};
