//! The processes of a node's jobs: how a launch begins, ends and is killed, where its output lies, and what is left of it
//! after the node itself was gone.
//!
//! Nothing can be proved of processes, so the spawner tells nothing. What is proved is that each call is safe, counts its
//! fault as the trait says, and ends as far as the calls of the system end.
#![tactic(auto)]

mod launches;
mod processes;
mod spawners;

pub use spawners::ChildSpawner;
