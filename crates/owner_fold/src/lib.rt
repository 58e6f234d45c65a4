//! The facts of the entries that a node took: its plan, and what each workstation tells of it.
//!
//! `Owners` takes the entries one by one. A contract sees it as the list of them, and each fact of the list is that of
//! `model::specs`, in the view of the entries: of a workstation in the list of its events, of an object in the list of
//! its owner. A fact of an object that the catalogue lacks is 0, false or None. No fact takes memory.
//!
//! What each workstation tells in its own list is that of `owner_rows`, which `kept` hands out. Beside it `Owners` keeps
//! where the documents of the catalogue stand, and the members of the plan, each by its number, and the greatest numbers;
//! and for each workstation which streams wait for their release, which are under way, which jobs have an
//! open launch, and which objects of members have a time, or a dependency on a file; and which pairs of workstations have
//! to do with one another.
#![tactic(auto)]

mod catalogue;
mod changes;
mod dependencies;
mod doc_places;
mod events;
mod facts;
mod filed;
mod fills;
mod given;
mod given_objects;
mod holdings;
mod numbers;
mod pairs;
mod plans;
mod searches;
mod sets;
mod stages;
mod stations;
mod timed;
mod units;

pub use catalogue::{PlannedJobs, StreamJobs, Streams};
pub use filed::{FiledJobs, FiledStreams};
pub use holdings::Owners;
pub use owner_rows::Outcome;
pub use stages::{BegunStreams, WaitingStreams};
pub use timed::{TimedJobs, TimedStreams};
pub use units::OpenLaunches;
