//! The operator's orders: which command a line gives, and whether a workstation obeys it.
//!
//! `resolve` looks up the names of a line in the network and in what a node holds, and gives the command with the
//! workstation that it goes to. Which answer is due for which line is the table `specs::Orders`, one row a line; what
//! its names stand for is said in `specs::Names`. `judge` decides on a command at the workstation to which it came. It
//! takes no memory, and its answer is that of `model::specs::Verdicts` in the view of the entries. Both go by the network
//! as it stands for the node: the defined one, after the switches of managers that the node knows of.
#![tactic(auto)]

mod dependencies;
mod names;
mod object_verdicts;
mod objects;
mod orders;
mod rooms;
mod verdicts;

pub use names::workstation;
pub use orders::{ResolveFault, resolve};
pub use verdicts::{Verdict, judge};
