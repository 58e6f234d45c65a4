//! The bodies that a message file keeps, read while a node may write it.
//!
//! Each record is looked at in one call that begins at its gate, so all that is said of it is said of one moment. A
//! record whose gate is open is whole and stays as it is: a node writes it behind a closed gate, and opens that last.
//! `specs/Growth` says what a node does to its file.
#![tactic(auto)]

mod bodies;
mod faults;
mod heads;
mod laws;
mod records;
mod windows;

pub use bodies::read_bodies;
pub use faults::FileFault;
pub use laws::own_files_are_not_refused;
