//! What the first so many events of a workstation tell, at any count of them.
//!
//! `CountedFacts` takes the entries of a history one by one, and is then asked with counts: each fact is that of
//! `model::specs` in the first so many events of a workstation. Whenever an entry speaks of a job or a stream, what then
//! holds of it is kept with the entry's place, as a change in a timeline (`specs/Timelines`). A fact at a count is that
//! of the last change at or before it, which is found by halving. So nothing is copied, and counts may go back and forth.
//!
//! `ToldLaunches` takes the entries one by one too. It tells how many launches each job has, and which of them were told
//! and ended in the list of a workstation: each is one look-up. `specs/Launches` says what it tells.
#![tactic(auto)]

mod facts;
mod jobs;
mod launch_bodies;
mod launch_rows;
mod masters;
mod numbers;
mod streams;
mod subjects;
mod timelines;

pub use facts::CountedFacts;
pub use launch_rows::ToldLaunches;
