//! A node of the network is served over its disk: it is made anew of its message file, its links begin once, and it runs.
//!
//! What a service does, from the disk that is handed in to the one that is handed back, is `specs/Serving`: which node runs,
//! over which trace, what its file then keeps, and what a stop at any moment of it leaves. Where no node is made of the
//! disk nothing else is called.
#![tactic(auto)]

mod laws;
mod services;

pub use laws::services_of_one_disk_join;
pub use node_inputs::NodeEnd;
pub use node_restart::RestartFault;
pub use services::{Served, ServiceEnd, serve_node};
