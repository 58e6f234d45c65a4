//! A workstation is served twice, worked out whole: the premises of `service_nights` can be met by a disk.
//!
//! `specs/Served` has what occurs, over disks in memory that keep every moment: the first service is stopped while its file
//! gets a header, and the second finds the header, runs for a turn, and ends.
#![tactic(auto)]

mod laws;

pub use laws::the_worked_services_are_services;
