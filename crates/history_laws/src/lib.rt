//! The text of a history is read back to it, and so are the lines of its network.
//!
//! A network that was read, from a record or from definitions, and that is accepted, is printed in lines that are a record
//! of that network, and the front of a history of it. `specs/Printables.antt` says what such a network has, and that
//! FULLSTATUS of managers is all that no line says; `specs/NetworkReturns.antt` says what reading back is.
//! `printed_networks_are_read_back` is the law.
//!
//! With such a network, entries that are fit, and starts, are printed as a text that is read as a history of that network,
//! but for FULLSTATUS of managers, with those entries and those starts. `specs/Returns.antt` says what of entries and
//! starts a text can tell. `printed_histories_are_read_back` is the law. Behind `$HISTORY` each line is one row
//! (`proofs/Rows.antt`): the bytes of an entry are bytes (`proofs/Bytes.antt`), and the name of a workstation is found at
//! its place (`proofs/Places.antt`). No row has a fault, and together they mean what was printed (`proofs/Walks.antt`).
//!
//! Two laws more say what such a text needs and keeps: what a reached world holds names workstations of the network alone
//! (`reached_worlds_stay_inside`), and a history stays sound where FULLSTATUS of managers is lost
//! (`soundness_asks_nothing_of_full_status`).
#![tactic(auto)]

mod laws;
mod network_laws;

pub use laws::{
    printed_histories_are_read_back, reached_worlds_stay_inside,
    soundness_asks_nothing_of_full_status,
};
pub use network_laws::printed_networks_are_read_back;
