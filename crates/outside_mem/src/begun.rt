// The beginnings of a link, in room that is taken at once.
ghost use Rattle.std.specs.Prelude.{◌≡◌, ◌+◌, ◌≤◌, ◌<◌, ◌++◌, true, false, nat_le, length, map, flat_map, IfOk, IfSome, IsNone, Some, ◌↔◌, slice_get, option_map};
ghost use Rattle.outside_mem.specs.Begun.{no_begun, with_begun, without_begun, peers_fit, host_bytes, kept_peer};

use crate::rooms::{Row, Rows};
use base_types::{NoMemory, Peer, Ws};
use std::alloc::Global;
use std::marker::Model;

/// A link was to begin; the addresses stand beside it.
#[derive(Clone, Copy, PartialEq)]
pub struct BegunBy {
    pub me: Option<Ws>,
    pub hop: Option<Ws>,
    /// Whether the call succeeded.
    pub ok: bool,
}

/// An address; its host stands beside it.
#[derive(Clone, Copy, PartialEq)]
pub struct PeerAt {
    pub ws: Ws,
    pub port: u16,
}

/// Calls of `begin`, in room that was taken when this was made.
pub struct Begun {
    calls: Vec<Row<BegunBy>>,
    peers: Rows<PeerAt>,
    room: usize,
    whole: bool,
}

impl Drop for Begun {
    fn drop(self) {
        let Begun {
            calls: _calls,
            peers: _peers,
            room: _room,
            whole: _whole,
        } = self;
    }
}

impl Model for Begun {
    ghost use Rattle.std.specs.Prelude.{◌≡◌, ◌≤◌, length, vec_capacity};
    ghost use Rattle.outside_mem.specs.Rooms.{cut, AreCut};
    ghost use Rattle.outside_mem.specs.Begun.{BegunLog};

    ghost Value = { BegunLog };

    ghost view = { λ b. record {
      calls = cut 0 b.calls.items b.peers.rows;
      peers = length b.peers.rows;
      used = b.peers.used;
      room = b.room;
      whole = b.whole;
    } };

    ghost invariant = { λ b. AreCut 0 b.calls.items b.peers.rows
        × (length (cut 0 b.calls.items b.peers.rows) ≡ length b.calls.items)
        × (b.peers.room ≡ b.room)
        × (length b.calls.items ≤ b.room) × (b.room ≤ vec_capacity b.calls) };
}

impl Begun {
    /// No call yet, with room for so many calls, addresses, and bytes of hosts. `NoMemory` where there is none.
    pub fn new(alloc: Global, room: u32) -> Result<Self, NoMemory>
        ensures { IfOk result (λ b. b ≡ no_begun room) }
    {
        let peers = Rows::new(alloc, room)?;
        let room = room as usize;
        Ok(Begun {
            calls: Vec::with_capacity(alloc, room)?,
            peers,
            room,
            whole: true,
        })
    }

    /// Whether there is room for one call more with these addresses.
    pub fn has_room(&self, peers: &[Peer]) -> bool
        ensures { result ≡ peers_fit peers.now self.now }
    {
        self.calls.len() < self.room
            && peers.len() <= self.room - self.peers.len()
            && hosts_fit(peers, self.room - self.peers.used())
    }

    /// Adds a call, for which there is room.
    pub fn add(&mut self, call: BegunBy, peers: &[Peer])
        requires { peers_fit peers.now self.old ≡ true }
        ensures { self.new ≡ with_begun call peers.now self.old }
    {
        let end = self.peers.len() + peers.len();
        keep_peers(&mut self.peers, peers);
        self.calls.push_reserved(Row { tag: call, end });
    }

    /// Notes that a call came for which there is no room.
    pub fn miss(&mut self)
        ensures { self.new ≡ without_begun self.old }
    {
        self.whole = false;
    }

    /// How many calls are kept.
    pub fn len(&self) -> usize
        ensures { result ≡ length self.now.calls }
    {
        self.calls.len()
    }

    /// The call with this number, counted from 0, without its addresses.
    pub fn get(&self, i: usize) -> Option<&BegunBy>
        ensures call { IfSome result (λ call. option_map (λ row. row.0) (slice_get self.now.calls i) ≡ Some call.now) }
        ensures none { IsNone result ↔ (length self.now.calls ≤ i) }
    {
        let Some(row) = self.calls.get(i) else {
            return None;
        };
        Some(&row.tag)
    }

    /// The addresses of all calls, one call's behind the other's.
    pub fn peers(&self) -> &Rows<PeerAt>
        ensures { result.now.rows ≡ flat_map (λ row. row.1) self.now.calls }
    {
        &self.peers
    }
}

/// Whether the hosts have so many bytes together at most.
#[tactic(auto, using(std::proofs::lemmas::List::Sums::sum_by_more, std::proofs::lemmas::List::Sums::sum_by_more_le))]
fn hosts_fit(peers: &[Peer], room: usize) -> bool
    ensures { result ≡ nat_le (host_bytes peers.now) room }
{
    let mut left = room;
    for peer in peers {
        let count = peer.host.len();
        if count > left {
            return false;
        }
        left -= count;
    }
    true
}

/// Keeps addresses, for which there is room.
#[tactic(auto, using(std::proofs::lemmas::List::Sums::sum_by_more, std::proofs::lemmas::List::Sums::sum_by_more_le))]
fn keep_peers(rows: &mut Rows<PeerAt>, peers: &[Peer])
    requires room { length rows.old.rows + length peers.now ≤ rows.old.room }
    requires bytes { rows.old.used + host_bytes peers.now ≤ rows.old.room }
    ensures rows { rows.new.rows ≡ rows.old.rows ++ map kept_peer peers.now }
    ensures used { rows.new.used ≡ rows.old.used + host_bytes peers.now }
    ensures room { rows.new.room ≡ rows.old.room }
{
    for peer in peers {
        let address = PeerAt {
            ws: peer.ws,
            port: peer.port,
        };
        rows.add(address, peer.host.as_str().as_bytes());
    }
}
