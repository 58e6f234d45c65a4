//! Bytes that wait.
ghost use Rattle.std.specs.Prelude.{◌≡◌, ◌++◌, [], length, drop, OnOk, OnErr, IsTrue, ◌↔◌};

use std::alloc::{AllocError, Global};
use std::marker::Model;

/// Bytes that wait: those that were put first go first. Contracts see those that are there.
///
/// Those that have gone keep their room until all have gone, until `settle`, or until a further piece comes while fewer are
/// there than have gone. No memory is given back.
#[derive(Drop)]
pub struct Queue {
    bytes: Vec<u8>,
    /// How many of them have gone.
    gone: usize,
}

impl Model for Queue {
    ghost use Rattle.std.specs.Prelude.{◌≤◌, List, ℕ, drop, length};

    ghost Value = { List ℕ };

    ghost view = { λ q. drop q.gone q.bytes.items };

    ghost invariant = { λ q. q.gone ≤ length q.bytes.items };
}

impl Queue {
    /// No bytes. It takes no memory yet.
    pub fn new(alloc: Global) -> Self
        ensures { result ≡ [] }
    {
        Queue {
            bytes: Vec::new(alloc),
            gone: 0,
        }
    }

    /// The bytes that are there.
    pub fn rest(&self) -> &[u8]
        ensures { result.now ≡ self.now }
    {
        &self.bytes.as_slice()[self.gone..]
    }

    /// Puts a piece behind them, whole or not at all.
    pub fn put(&mut self, piece: &[u8]) -> Result<(), AllocError>
        ensures put { OnOk result (self.new ≡ self.old ++ piece.now) }
        ensures same { OnErr result (self.new ≡ self.old) }
    {
        if self.gone > self.bytes.len() - self.gone {
            self.settle();
        }
        self.bytes.extend_from_slice(piece)
    }

    /// Lets the first of them go.
    pub fn skip(&mut self, count: usize)
        ensures { self.new ≡ drop count self.old }
    {
        let rest = self.bytes.len() - self.gone;
        self.gone += count.min(rest);
        if self.gone == self.bytes.len() {
            self.bytes.clear();
            self.gone = 0;
        }
    }

    /// Moves the bytes to the front, so that further ones take the room of those that have gone.
    pub fn settle(&mut self)
        ensures { self.new ≡ self.old }
    {
        let _ = self.bytes.drain(..self.gone);
        self.gone = 0;
    }
}
