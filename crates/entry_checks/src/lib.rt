//! What is asked of an entry before it is kept or sent: how many bytes it has when it is written, and whether all
//! workstations that it names are in a network.
//!
//! `entry_size` tells the bytes without memory. Each part takes its bytes from what is left of a bound, and tells what is
//! left behind it (`specs/Left`), so that no sum passes its type however long the lists are.
//!
//! A workstation is in a network of `count` workstations where its number is below that. `specs/Inside` says it of a
//! list of numbers, and `model::specs::Workstations` lists those that an entry, a command or drafts name. Each answer is
//! one walk over the value, without memory.
#![tactic(auto)]

mod bodies;
mod documents;
mod drafts;
mod entries;
mod parts;

pub use bodies::is_entry_inside;
pub use drafts::{are_drafts_inside, is_cmd_inside};
pub use entries::entry_size;
