//! Switches of managers: an agent takes over as the manager of its domain.
//!
//! `switched` is the network once a workstation has taken over, or why it does not take over. `present_net` is the
//! network as it stands for a node: the one that was defined, after the switches that the events of the master obeyed,
//! in order. A switch that `switched` refuses in the network that was reached, or whose workstation is outside it,
//! changes nothing there. `present_after` follows the present network one entry further.
//!
//! The networks are those of `model::specs::PresentNet`. Each is a `Network`, so each is a tree that ends at the
//! master, and nothing but want of memory withholds one: `present_networks_are_accepted` says that none has a fault.
//!
//! What that costs: a switch copies the network and makes its table of ways anew. `present_net` walks over the entries
//! once, `present_after` looks at one.
#![tactic(auto)]

mod laws;
mod presents;
mod switches;

pub use laws::present_networks_are_accepted;
pub use presents::{present_after, present_net};
pub use switches::{SwitchFault, switched};
