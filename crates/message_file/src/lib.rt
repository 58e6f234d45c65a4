//! A file of records, which keeps bodies on a disk that may stop at any moment.
//!
//! A record counts where its gate is open (1) and it is whole. Behind the last one stands a closed gate, on the disk
//! before anything is written behind it: `gated_puts` writes a record behind it, and then opens it. So each stop leaves
//! the bodies of before, or these and the new one.
#![tactic(auto)]

mod attaches;
mod files;
mod keeps;
mod laws;
mod reads;
mod records;

pub use attaches::AttachFault;
pub use files::{MessageFile, NotAttached};
pub use laws::files_are_attached_again;

/// The most bytes of a file.
const LONGEST_FILE: u64 = base_types::LONGEST_FILE as u64;
