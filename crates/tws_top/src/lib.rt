//! The top call of the program: its words, all that it reads, writes and calls, and its exit status.
//!
//! `tws` does what its words ask for: those that are answered by the input alone are `input_commands`, and those that serve or
//! ask a workstation are `node_commands`. `specs/Dues` is the table of what is due for all of them, with the status and the
//! text. `specs/InputRows` and `specs/ServiceRows` say what comes with each status. What the words make no call on is as
//! before.
#![tactic(auto)]

mod top;

pub use top::{Done, tws};
