//! Where a node listens.

use crate::addresses::{Addresses, LookUps};
use crate::streams::is_waiting;
use crate::tellings::{tell_of, tell_unaccepted};
use base_types::Peer;
use node_log::{Commons, Value, cause_of};
use std::alloc::Global;
use std::fs::{File, Files};
use std::io;
use std::io::ErrorKind;
use std::net::{Net, OpenListener, SocketAddr};
use std::time::{Clock, Duration};

/// How many seconds after it tried to listen a node tries again.
const AGAIN: u64 = 2;

/// The own address of a node, on which it listens as soon as it can.
#[derive(Drop)]
pub struct Home<R: Net> {
    peer: Peer,
    addresses: Addresses,
    listener: Option<R::Listener>,
    /// Whether connections are under a key, in a word.
    keyed: &'static str,
    tried: Duration,
    /// How the last try failed, where none did better since.
    failed: Option<ErrorKind>,
}

impl<R: Net + Clock + Files<File = File> + Drop> Home<R> {
    /// The address of this workstation, on which nobody listens yet.
    pub fn new(alloc: Global, peer: Peer, is_keyed: bool) -> Self {
        Home {
            peer,
            addresses: Addresses::none(alloc),
            listener: None,
            keyed: if is_keyed { "yes" } else { "no" },
            tried: Duration::ZERO,
            failed: None,
        }
    }

    /// Whether the node listens.
    pub fn is_open(&self) -> bool {
        self.listener.is_some()
    }

    /// One who calls, where there is one, and from which address. A failure is told to the log.
    pub fn accept(&self, commons: &Commons<R>) -> Option<(R::Stream, SocketAddr)> {
        match self.listener.as_ref()?.accept() {
            Ok(caller) => Some(caller),
            Err(error) => {
                if !is_waiting(&error) {
                    tell_unaccepted(commons, &error);
                }
                None
            }
        }
    }

    /// Tries to listen, where the last try was two seconds before. What came of it is told to the log where it is new.
    pub fn listen_again(
        &mut self,
        rt: &R,
        commons: &Commons<R>,
        look_ups: &mut LookUps,
        now: Duration,
    ) {
        if self.listener.is_none() && now.saturating_sub(self.tried) >= Duration::from_secs(AGAIN) {
            let _ = self.listen(rt, commons, look_ups, now);
        }
    }

    /// Tries to listen. What came of it is told to the log where it is new.
    pub fn listen(
        &mut self,
        rt: &R,
        commons: &Commons<R>,
        look_ups: &mut LookUps,
        now: Duration,
    ) -> io::Result<()> {
        self.tried = now;
        match self.new_listener(rt, look_ups, now) {
            Ok(listener) => {
                self.listener = Some(listener);
                self.failed = None;
                tell_of(
                    commons,
                    "listening",
                    &self.peer,
                    &[("key", Value::Word(self.keyed))],
                );
                Ok(())
            }
            Err(error) => {
                let kind = Some(error.kind());
                if self.failed != kind {
                    self.failed = kind;
                    tell_of(commons, "deaf", &self.peer, &[cause_of(&error)]);
                }
                Err(error)
            }
        }
    }

    fn new_listener(
        &mut self,
        rt: &R,
        look_ups: &mut LookUps,
        now: Duration,
    ) -> io::Result<R::Listener> {
        if self.addresses.are_none() {
            if self.addresses.need_look_up(&self.peer) && !look_ups.may(now) {
                return Err(ErrorKind::AddrNotAvailable.into());
            }
            let found = self.addresses.find(rt, &self.peer);
            look_ups.note(now, rt.monotonic().unwrap_or(now));
            found?;
        }
        let listener = self.addresses.listen(rt)?;
        listener.set_nonblocking(true)?;
        Ok(listener)
    }
}
