//! The lines to all other workstations.

use crate::channels::Channel;
use crate::lines::Line;
use crate::rounds::Round;
use crate::streams::CLIENT;
use crate::tellings::{tell_arrival, tell_unproved};
use base_types::{Copied, NoMemory, Peer, Peers, Ws};
use node_log::Commons;
use outside::Arrival;
use std::alloc::Global;
use std::fs::{File, Files};
use std::io;
use std::io::{ErrorKind, Read, Write};
use std::net::OpenStream;
use std::time::Clock;

/// The lines to all other workstations.
#[derive(Drop)]
pub struct Neighbours<S> {
    lines: Vec<Line<S>>,
    /// The line that is looked at first, and the one that is called first.
    next: usize,
    next_call: usize,
}

impl<S: Read + Write + OpenStream + Drop> Neighbours<S> {
    /// No lines. They take no memory yet.
    pub fn none(alloc: Global) -> Self {
        Neighbours {
            lines: Vec::new(alloc),
            next: 0,
            next_call: 0,
        }
    }

    /// A line to each of these workstations but one.
    pub fn new(alloc: Global, peers: &Peers, me: Ws) -> io::Result<Self> {
        let mut lines = Vec::with_capacity(alloc, peers.len())?;
        for peer in peers.as_slice() {
            if peer.ws != me {
                lines.push(Line::new(alloc, copy_of(peer)?))?;
            }
        }
        Ok(Neighbours {
            lines,
            next: 0,
            next_call: 0,
        })
    }

    /// The line to a workstation.
    pub fn line_to(&mut self, ws: Ws) -> Option<&mut Line<S>> {
        let place = self.lines.iter().position(|line| line.ws() == ws)?;
        self.lines.get_mut(place)
    }

    /// The next line of those that are to be called now, where a name that has to be looked up may be.
    pub fn next_due(&mut self, round: &Round, may_look_up: bool) -> Option<&mut Line<S>> {
        let place = self.due_place(round, may_look_up)?;
        self.next_call = place.saturating_add(1);
        self.lines.get_mut(place)
    }

    fn due_place(&self, round: &Round, may_look_up: bool) -> Option<usize> {
        let count = self.lines.len();
        let start = self.next_call.min(count);
        for place in (start..count).chain(0..start) {
            if let Some(line) = self.lines.get(place)
                && line.is_due(round.own, round.now)
                && (may_look_up || !line.needs_look_up())
            {
                return Some(place);
            }
        }
        None
    }

    /// Goes on with all that waits for the other ends. A client sends no beats: its workstation reads nothing behind the
    /// question, and bytes that are not read when it closes cost the client the end of its reply.
    pub fn keep<R: Files<File = File> + Clock + Drop>(
        &mut self,
        commons: &Commons<R>,
        round: &Round,
    ) {
        let beats = round.own != CLIENT;
        for line in self.lines.iter_mut() {
            look_for_answer(commons, round, line);
            line.keep(beats, round.now);
        }
    }

    /// What has come over the lines. The one behind the last that brought something is looked at first.
    pub fn arrival<R: Files<File = File> + Clock + Drop>(
        &mut self,
        commons: &Commons<R>,
        round: &Round,
        buffer: &mut [u8],
    ) -> Arrival {
        let ends_silent = round.own != CLIENT;
        let count = self.lines.len();
        let start = self.next.min(count);
        for place in (start..count).chain(0..start) {
            let Some(line) = self.lines.get_mut(place) else {
                return Arrival::Nothing;
            };
            match line.arrival(round.alloc, buffer, ends_silent, round.now) {
                Arrival::Nothing => {}
                arrival => {
                    tell_arrival(commons, line, &arrival);
                    self.next = place.saturating_add(1);
                    return arrival;
                }
            }
        }
        Arrival::Nothing
    }

    /// Takes a connection that a workstation made. Tells whether there is a line to it.
    pub fn join(&mut self, ws: Ws, channel: Channel<S>) -> bool {
        match self.line_to(ws) {
            Some(line) => {
                line.take(channel);
                true
            }
            None => false,
        }
    }
}

/// Looks for the answer of a workstation that was greeted under the key.
fn look_for_answer<R: Files<File = File> + Clock + Drop, S: Read + Write + OpenStream + Drop>(
    commons: &Commons<R>,
    round: &Round,
    line: &mut Line<S>,
) {
    let Some(key) = &round.key else {
        return;
    };
    if let Some(why) = line.look_for_answer(round.alloc, key, round.now) {
        tell_unproved(commons, line.peer(), why);
    }
}

/// A copy of where a workstation is reached.
pub fn copy_of(peer: &Peer) -> io::Result<Peer> {
    match peer.copy() {
        Ok(copy) => Ok(copy),
        Err(NoMemory) => Err(ErrorKind::OutOfMemory.into()),
    }
}
