//! Where a workstation is reached.

use crate::streams::set_up;
use base_types::Peer;
use std::alloc::Global;
use std::io;
use std::io::ErrorKind;
use std::net::{IpAddr, Net, SocketAddr, TcpListener, TcpStream, ToSocketAddrs};
use std::time::Duration;

/// How many addresses of one host are tried.
const MOST: usize = 4;

/// How often a look-up's own time has to pass before the next look-up.
const REST: u32 = 12;

/// The addresses of a workstation's host, as far as they are known.
#[derive(Drop)]
pub struct Addresses {
    known: Vec<SocketAddr>,
}

impl Addresses {
    /// None are known.
    pub fn none(alloc: Global) -> Self {
        Addresses {
            known: Vec::new(alloc),
        }
    }

    /// Whether none are known.
    pub fn are_none(&self) -> bool {
        self.known.is_empty()
    }

    /// Whether the name of the host has to be looked up before it is called. A host in digits never is.
    pub fn need_look_up(&self, peer: &Peer) -> bool {
        self.known.is_empty() && peer.host.as_str().parse::<IpAddr>().is_err()
    }

    /// Takes down the addresses of the host: a name is looked up, and digits are read.
    pub fn find<R: Net>(&mut self, rt: &R, peer: &Peer) -> io::Result<()> {
        self.known.clear();
        let found = (peer.host.as_str(), peer.port).to_socket_addrs(rt)?;
        for address in found.take(MOST) {
            self.known.push(address)?;
        }
        Ok(())
    }

    /// Connects to the first that answers within so many milliseconds. Where none does they are forgotten.
    pub fn connect<R: Net>(&mut self, rt: &R, patience: u64) -> io::Result<R::Stream> {
        let patience = Duration::from_millis(patience);
        let mut last = io::Error::from(ErrorKind::NotConnected);
        for address in self.known.iter() {
            match connect_to(rt, address, patience) {
                Ok(stream) => return Ok(stream),
                Err(error) => last = error,
            }
        }
        self.known.clear();
        Err(last)
    }

    /// Listens on the first that can be listened on. Where none can they are forgotten.
    pub fn listen<R: Net>(&mut self, rt: &R) -> io::Result<R::Listener> {
        let mut last = io::Error::from(ErrorKind::AddrNotAvailable);
        for address in self.known.iter() {
            match TcpListener::bind(rt, *address) {
                Ok(listener) => return Ok(listener),
                Err(error) => last = error,
            }
        }
        self.known.clear();
        Err(last)
    }
}

fn connect_to<R: Net>(rt: &R, address: &SocketAddr, patience: Duration) -> io::Result<R::Stream> {
    let stream = TcpStream::connect_timeout(rt, address, patience)?;
    set_up(&stream)?;
    Ok(stream)
}

/// When names may be looked up: once twelve times the time of the last look-up went by. So a resolver that does not answer
/// takes a node some seconds of a minute, and one that answers at once holds nothing up.
#[derive(Clone, Copy)]
pub struct LookUps {
    next: Duration,
}

impl LookUps {
    /// None was made.
    pub fn none() -> Self {
        LookUps {
            next: Duration::ZERO,
        }
    }

    /// Whether a name may be looked up now.
    pub fn may(&self, now: Duration) -> bool {
        now >= self.next
    }

    /// A look-up took this time.
    pub fn note(&mut self, began: Duration, ended: Duration) {
        let took = ended.saturating_sub(began);
        self.next = ended.saturating_add(took.saturating_mul(REST));
    }
}
