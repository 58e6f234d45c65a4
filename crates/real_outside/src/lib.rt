//! The real outside of a running node: its message file, its connections, the processes of its jobs, the system's clock
//! and the files that jobs wait for.
//!
//! Nothing can be proved of what a system holds or answers, so these objects tell nothing. Each counts the calls that
//! failed. What is proved is that each call is safe, counts as its trait says, and ends as far as the calls of the
//! system that it makes end.
#![tactic(auto)]

mod clocks;
mod disks;
mod probers;

pub use clocks::SystemClock;
pub use disks::FileDisk;
pub use job_processes::ChildSpawner;
pub use node_log::Commons;
pub use probers::FileProber;
pub use tcp_links::TcpLink;
