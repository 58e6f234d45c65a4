//! What came over each link since it began.
ghost use Rattle.std.specs.Prelude.{ℕ, IfOk, OnErr, Some};
ghost use Rattle.model.specs.Words.{with_at};
ghost use Rattle.node_loop.specs.Heard.{AreHeard, Completes, Heard, heard_more, nothing_heard};
ghost use Rattle.node_loop.specs.Placed.{IsPlace};

use base_types::{Items, NoMemory, Ws};
use mail_frames::{Decoder, Fed};
use std::alloc::Global;
use std::marker::Model;

/// The stream of a workstation.
#[derive(Drop)]
struct Stream {
    ws: Ws,
    decoder: Decoder,
}

/// The streams of those from whom bytes came.
#[derive(Drop)]
pub(crate) struct Streams {
    alloc: Global,
    list: Items<Stream>,
}

impl Model for Streams {
    ghost use Rattle.std.specs.Prelude.{List};
    ghost use Rattle.node_loop.specs.declared.streams.Stream.{Stream as AStream};

    ghost Value = { List AStream };

    ghost view = { λ s. s.list };
}

impl Streams {
    /// No bytes came yet.
    pub(crate) fn new(alloc: Global) -> Self
        ensures { AreHeard result (λ x. nothing_heard) }
    {
        Streams {
            alloc,
            list: Items::new(alloc),
        }
    }

    /// The place of a workstation's stream.
    fn place(&self, x: Ws) -> Option<usize>
        ensures { IsPlace self.now x result }
    {
        for (i, stream) in self.list.as_slice().iter().enumerate() {
            if stream.ws == x {
                return Some(i);
            }
        }
        None
    }

    /// The place of a workstation's stream, which is begun where there is none.
    fn place_or_new(&mut self, x: Ws) -> Result<usize, NoMemory>
        ensures place { IfOk result (λ i. IsPlace self.new x (Some i)) }
        ensures heard { (heard : ℕ → Heard) → AreHeard self.old heard → AreHeard self.new heard }
    {
        if let Some(i) = self.place(x) {
            return Ok(i);
        }
        let i = self.list.as_slice().len();
        self.list.push(Stream {
            ws: x,
            decoder: Decoder::new(self.alloc),
        })?;
        Ok(i)
    }

    /// The stream of a workstation begins anew.
    pub(crate) fn begin(&mut self, x: Ws)
        ensures { (heard : ℕ → Heard) → AreHeard self.old heard → AreHeard self.new (with_at x nothing_heard heard) }
    {
        if let Some(i) = self.place(x) {
            let anew = Stream {
                ws: x,
                decoder: Decoder::new(self.alloc),
            };
            self.list.set(i, anew);
        }
    }

    /// Takes bytes of a workstation. Where memory runs out none of them is taken, and they can be fed again.
    pub(crate) fn feed(&mut self, x: Ws, bytes: &[u8]) -> Result<Fed, NoMemory>
        ensures taken { IfOk result (λ fed. (heard : ℕ → Heard) → AreHeard self.old heard →
            Completes (heard x) bytes.now fed.frames fed.bad
            × AreHeard self.new (with_at x (heard_more (heard x) bytes.now fed.frames) heard)) }
        ensures err { OnErr result ((heard : ℕ → Heard) → AreHeard self.old heard → AreHeard self.new heard) }
    {
        let i = self.place_or_new(x)?;
        match self.list.get_mut(i) {
            None => unreachable!(),
            Some(stream) => stream.decoder.feed(bytes),
        }
    }
}
