//! The network as a tree of workstations, with the ways in it.
//!
//! A `Network` is a net that was tested once. Contracts see it as that net, to which no fault of `specs/Faults`
//! applies. Hops, ways and neighbours are those of `model::specs::Network`. They are found without memory and without
//! a walk, since a table of ways (`specs/Ways`) is kept beside the net.
#![tactic(auto)]

mod faults;
mod hops;
mod networks;
mod prompts;
mod ranges;
mod rows;

pub use faults::NetFault;
pub use networks::Network;
pub use prompts::is_only_shown;
