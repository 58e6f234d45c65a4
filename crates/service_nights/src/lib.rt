//! The services of a network's nodes are a night.
//!
//! A workstation is served over its disk, again and again; a service ends, or it is stopped at whatever moment, and the
//! next begins with a disk that this stop may have left. `specs/Services` lists what occurs at all workstations of a
//! network, one after the other, and says which night of `network_runs` that is. `specs/Served` has the premises: each
//! service is as the clauses of `serve_node` tell it, over a disk that tells its bytes. The laws need one premise more, on
//! links: what came whole from a workstation was sent by it.
#![tactic(auto)]

mod laws;

pub use laws::{no_service_starts_a_launch_twice, services_are_a_night, services_are_a_world};
