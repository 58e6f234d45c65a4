//! What holds of every record that is read: its history is fit to be printed, and the lines of its network are read back.
//!
//! The history which the run of a record reaches is fit: every text, condition and list of it is within its bounds. Each
//! name and text of a record stands in one of its lines, which are read by forms that bound it, and no list has more
//! items than the record has lines. So the plans of a record are fit, and so are the commands of the lines that its steps
//! type. The plans of days are fit by `draft_laws`, and each step of the world brings nothing else to its history.
//! `histories_of_records_are_fit` is the law.
//!
//! No run of a record stops for a workstation outside its network, for a plan elsewhere than at the master, or for a spent
//! place: `records_stop_otherwise`. What is read names workstations of the network alone, and so does each command that is
//! typed or advised (`refusal_laws`, `record_runs/proofs/Coming.antt`).
//!
//! The network of a record has names that are names, as names are kept, and prompts whose texts stand on one line, which is
//! `IsPrintable` of `history_laws`. Without definitions each row of the network comes from one line, and what a line gives
//! is a name, or a text without a line feed (`proofs/NetworkRows.antt`). Of definitions that are read, `composer_laws` has
//! what their names and texts are. `records_have_printable_networks` is the law, for records of either kind.
#![tactic(auto)]

mod laws;
mod network_laws;

pub use laws::{histories_of_records_are_fit, records_stop_otherwise};
pub use network_laws::records_have_printable_networks;
