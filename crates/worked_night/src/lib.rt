//! A night of two workstations, worked out whole: the premises of `network_runs` can be met.
//!
//! `specs/Workload` has the definitions, `specs/Happened` what happens: a plan, a launch, a mail, a stop that leaves an
//! entry in hand, and a restart. Each run is built from the rules of `node_loop`, move by move.
#![tactic(auto)]

mod laws;

pub use laws::the_worked_night_is_a_night;
