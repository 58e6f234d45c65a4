//! A prober in memory, for tests: it gives listed answers and tells all that it was asked.
//!
//! What it holds and what a call leaves is `specs/Probers`.
#![tactic(auto)]

mod probers;

pub use probers::MemProber;
