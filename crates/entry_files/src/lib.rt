//! The entries that a message file keeps, read while a node may write it.
//!
//! A file is refused for the same causes as by a node that is made of it: it is none of the workstation, or keeps a body
//! that is no entry, not the next of its feed, or names a workstation outside the network. `specs/Entries` says which
//! entries a file keeps and which files are refused.
#![tactic(auto)]

mod nexts;
mod reads;
mod takes;

pub use kept_files::FileFault;
pub use reads::read_entries;
