//! The one spelling of each entry in bytes, written and read.
//!
//! The spelling is that of `model::specs::Spelling`, in version 2 where the entry needs it and else in version 1. A fit
//! entry is written so, and exactly the spellings of fit entries are read, each as its entry. All other bytes have a
//! first fault from the left, which is told with the place of its field; `specs/Entries.antt` and the files before it
//! have the format, part by part, with its faults.
#![tactic(auto)]

mod laws;
mod reading;
mod versions;
mod writing;

pub use laws::entries_have_one_spelling;
pub use reading::entries::read_entry;
pub use versions::has_deadline;
pub use writing::documents::put_stream;
pub use writing::entries::write_entry;
pub use writing::lists::put_flag;

/// Why bytes are no entry: their first fault from the left. Places count from 0.
#[derive(Clone, Copy, Debug)]
pub enum EntryFault {
    /// Bytes are missing of the field that begins at this place.
    Short(u32),
    /// The version is neither 1 nor 2.
    Version,
    /// The field that begins at this place has a value that it may not have.
    BadField(u32),
    /// Bytes are left behind the entry, from this place on.
    TooMuch(u32),
    /// There was no memory for the entry.
    NoMemory,
}
