//! The outside, as traits: sources and sinks of bytes, disks, keepers of bodies, links, spawners of processes, clocks.
//!
//! Each object counts the calls that failed, so that whoever holds it can see from the count whether the outside is at
//! fault. What an object holds is told where it is known, as in memory; a file, a socket or a terminal tells nothing.
#![tactic(auto)]

ghost use Rattle.std.specs.Prelude.{◌≡◌, ◌<◌, ◌≤◌, ℕ, List, [], length, take, IfOk, OnErr};
ghost use Rattle.std.specs.declared.option.Option.{Option};
ghost use Rattle.std.specs.Io.{ReadsAtMost};
ghost use Rattle.std.specs.Io.KnownBytes.{WriteAppends};
ghost use Rattle.outside.specs.Causes.{HasCause};
ghost use Rattle.outside.specs.Streams.{Stream, Takes, IsAtEnd};

mod clocks;
mod disks;
mod framed;
mod images;
mod keepers;
mod links;
mod spawners;

pub use clocks::Clock;
pub use disks::Disk;
pub use framed::{FrameFault, Framed};
pub use images::stops_leave_exactly_these;
pub use keepers::{KeepFault, Keeper};
pub use links::{Arrival, Link};
pub use spawners::{End, Spawner};

/// A call to the outside failed, and the object's count of faults rose.
#[derive(Clone, Copy, PartialEq)]
pub struct Failed;

/// A source of bytes.
pub trait Source {
    /// The bytes that reads have given so far and those that are left, where the source tells them.
    ghost stream: { Self → Option Stream };

    /// The count of its faults, up to 2^64 - 1: it rises in each read that fails, and in no other.
    ghost faults: { Self → ℕ };

    /// Moves bytes from the front of what is left to the front of the buffer, and answers how many. An answer of 0 for
    /// a buffer that is not empty is the end. A read that fails moves none.
    fn read(&mut self, buf: &mut [u8]) -> Result<usize, Failed>
        ensures bound { ReadsAtMost result buf.new }
        ensures moved { IfOk result (λ n. Takes (stream self.old) (stream self.new) (take n buf.new)) }
        ensures end { IfOk result (λ n. n ≡ 0 → 0 < length buf.new → IsAtEnd (stream self.new)) }
        ensures failed { OnErr result (Takes (stream self.old) (stream self.new) []) }
        ensures cause { HasCause (faults self.old) (faults self.new) result };
}

/// A sink for bytes.
pub trait Sink {
    /// The bytes that were written so far, where the sink tells them.
    ghost written: { Self → Option (List ℕ) };

    /// The count of its faults, up to 2^64 - 1: it rises in each write that fails, and in no other.
    ghost faults: { Self → ℕ };

    /// Takes bytes from the front of the piece, at least one where there is one, and answers how many. A write that
    /// fails takes none.
    fn write(&mut self, piece: &[u8]) -> Result<usize, Failed>
        ensures bound { IfOk result (λ n. n ≤ length piece.now) }
        ensures some { IfOk result (λ n. 0 < length piece.now → 0 < n) }
        ensures taken { WriteAppends (written self.old) (written self.new) result piece.now }
        ensures cause { HasCause (faults self.old) (faults self.new) result };
}
