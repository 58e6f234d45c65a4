//! Checked definitions: the network, the addresses, the streams and the free days that they give.
//!
//! `check` accepts definitions exactly where they have no fault of `definition_faults::specs::Faults`, and else answers the
//! first fault. A `Workload` is seen as the definitions that were checked. The network that they give is defined in
//! `specs/Nets`, free days and the days of calendars in `specs/Days`.
#![tactic(auto)]

mod days;
mod hosts;
mod nets;
mod stations;
mod workloads;

pub use definition_faults::DefFault;
pub use workloads::{Workload, check, check_whole};
