//! A node is made anew from its message file.
//!
//! The disk is attached for the node's workstation, each body that the file keeps is read as an entry, and a node is
//! made that holds these entries. A file that is none of this workstation, or that keeps a body which is no entry or not
//! the next of its feed, is refused with the first place that shows it: `specs/Restarting` says which files are accepted
//! and where the others are refused. The disk comes back in each case. Bodies are read one at a time, and only their
//! entries are kept.
#![tactic(auto)]

mod agents;
mod entries;
mod faults;
mod laws;
mod reads;
mod restarts;

pub use faults::RestartFault;
pub use laws::files_decide_restarts;
pub use restarts::{NotRestarted, Restarted, restart_node};
