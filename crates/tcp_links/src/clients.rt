//! The clients of a node.

use crate::channels::Channel;
use std::alloc::{AllocError, Global};
use std::collections::VecDeque;
use std::io;
use std::io::{ErrorKind, Read, Write};
use std::net::OpenStream;
use std::time::Duration;

/// How many clients may be there whose replies have not gone.
const MOST_LEAVING: usize = 32;

/// The clients of a node, as far as they were heard.
#[derive(Drop)]
pub struct Clients<S> {
    /// The client whose bytes were handed over last, until it has its reply.
    asking: Option<Channel<S>>,
    /// The clients whose replies have not gone yet.
    leaving: VecDeque<Channel<S>>,
}

impl<S: Read + Write + OpenStream + Drop> Clients<S> {
    /// Nobody, with no room.
    pub fn none(alloc: Global) -> Self {
        Clients {
            asking: None,
            leaving: VecDeque::new(alloc),
        }
    }

    /// Nobody yet, with room for all that may be there.
    pub fn new(alloc: Global) -> Result<Self, AllocError> {
        Ok(Clients {
            asking: None,
            leaving: VecDeque::with_capacity(alloc, MOST_LEAVING)?,
        })
    }

    /// The bytes of this one are handed over now.
    pub fn hear(&mut self, channel: Channel<S>) {
        self.asking = Some(channel);
    }

    /// Takes all these bytes to be sent to the client that was heard last, or fails. The client is then done.
    pub fn reply(&mut self, bytes: &[u8], now: Duration) -> io::Result<()> {
        let Some(mut channel) = self.asking.take() else {
            return Err(ErrorKind::NotConnected.into());
        };
        channel.send(bytes, now)?;
        self.leave(channel);
        Ok(())
    }

    /// Lets one go once its reply has gone. Where too many are there whose replies have not, the one that came first has to
    /// go.
    fn leave(&mut self, channel: Channel<S>) {
        if channel.is_idle() {
            return;
        }
        if self.leaving.len() >= MOST_LEAVING {
            drop(self.leaving.pop_front());
        }
        let _ = self.leaving.push_back(channel);
    }

    /// Sends what waits for those whose replies have not gone.
    pub fn keep(&mut self, now: Duration) {
        for _ in 0..self.leaving.len() {
            if let Some(channel) = self.leaving.pop_front() {
                self.flush(channel, now);
            }
        }
    }

    fn flush(&mut self, mut channel: Channel<S>, now: Duration) {
        if channel.flush(now).is_ok() {
            self.leave(channel);
        }
    }
}
