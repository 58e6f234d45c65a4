//! What the events of each workstation tell, among the entries that a node took.
//!
//! `Kept` takes the entries one by one. A contract sees it as the list of them, and each fact is that of `model::specs`
//! in the list of one feed. No fact takes memory. Beside the entries there is a row for each job, stream, workstation,
//! dependency and so on, which each entry changes at one place (`specs::Told`): a fact is one look-up, or two. An entry
//! takes its memory first, by blank rows that tell nothing, so that an entry for which there is none changes nothing.
//! A body, and a dependency that was added, is found by a row that tells where among the entries it stands
//! (`specs::Standing`).
#![tactic(auto)]

mod answers;
mod body_facts;
mod counts;
mod deps;
mod job_facts;
mod jobs;
mod kept;
mod launches;
mod object_facts;
mod objects;
mod places;
mod replies;
mod starts;
mod station_facts;
mod station_tables;
mod stations;
mod streams;
mod subjects;
mod tables;
mod told;
mod totals;
mod work_tables;

pub use kept::Kept;
pub use launches::Outcome;
