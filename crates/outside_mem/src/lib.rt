//! The outside in memory: a source and a sink that tell all that they hold, and whose failing calls are listed.
//!
//! Calls are numbered from 1. A call fails exactly where its number is listed or it would pass the room that the object
//! took when it was made; the object's count of faults then rises by one, and nothing else of what it holds changes.
#![tactic(auto)]

mod begun;
mod calls;
mod clocks;
mod crashes;
mod disks;
mod keepers;
mod links;
mod logs;
mod rooms;
mod sink;
mod source;
mod spawners;
mod stopping;

pub use begun::{Begun, BegunBy, PeerAt};
pub use clocks::MemClock;
pub use crashes::{CrashDisk, Made};
pub use disks::MemDisk;
pub use keepers::MemKeeper;
pub use links::{Ask, MemLink, SentTo};
pub use logs::Log;
pub use rooms::Rows;
pub use sink::MemSink;
pub use source::MemSource;
pub use spawners::{Killed, MemSpawner, Started};
pub use stopping::StoppingDisk;
