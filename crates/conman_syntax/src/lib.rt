//! The lines that an operator types, each read exactly.
//!
//! `parse_command` gives a line's parts, or says what is wrong with it: no command, the first bad argument, or one
//! argument too many. Which answer is due for which text is the table `specs::Rows`, one row a line; the command words
//! stand in `specs::Heads`, the forms of arguments in `specs::References`, `specs::Dependencies` and `specs::Values`. How
//! long its names and texts may be is said in `specs::Fit`.
//! Whether what a line names is there is asked by those who know the network.
#![tactic(auto)]

mod arguments;
mod dependencies;
mod faults;
mod heads;
mod lines;
mod object_rows;
mod references;
mod rows;
mod station_rows;
mod values;

pub use faults::CommandFault;
pub use lines::{DepRef, JobRef, Line, ObjRef, StreamRef};
pub use rows::parse_command;
pub use values::passed;
