// The links of a node to its neighbours, and its clients.
ghost use Rattle.std.specs.Prelude.{◌≡◌, ℕ, List, is_ok};
ghost use Rattle.outside.specs.Causes.{HasCause};
ghost use Rattle.outside.specs.Calls.{LinkCalls, Begins, Sends, Replies, Asks};
ghost use Rattle.outside.specs.Calls.Asked.{Raise, Close};
ghost use Rattle.outside.specs.Arrivals.{Arrives};

use crate::Failed;
use base_types::{Bytes, Peers, Ws};

/// What came over the links.
#[derive(Drop)]
pub enum Arrival {
    /// Bytes of a workstation.
    Bytes(Ws, Bytes),
    /// The link to the workstation began.
    Up(Ws),
    /// It ended.
    Down(Ws),
    /// Bytes of a client.
    Client(Bytes),
    Nothing,
    /// There was no memory for what came; it is still to come.
    NoMemory,
}

/// The links of a node.
///
/// It tells the calls that were made of it, each with what it was given and whether it succeeded, and what came. Where
/// it has no room to tell a call it tells calls of that kind no more.
pub trait Link {
    /// What it tells.
    ghost calls: { Self → LinkCalls };

    /// The count of its faults, up to 2^64 - 1: it rises in each call that fails, and in no other.
    ghost faults: { Self → ℕ };

    /// Begins, with the own number (none for a client), the workstation to connect to, and the addresses of all
    /// workstations, since any of them may become a neighbour later. A client has one address, that of the workstation
    /// that it asks.
    fn begin(&mut self, me: Option<Ws>, hop: Option<Ws>, peers: &Peers) -> Result<(), Failed>
        ensures calls { Begins (record { me = me; hop = hop; peers = peers.now; ok = is_ok result }) (calls self.old) (calls self.new) }
        ensures cause { HasCause (faults self.old) (faults self.new) result };

    /// What comes next. Where there is no memory for it nothing changes. It cannot fail: a link that breaks comes as `Down`.
    fn poll(&mut self) -> Arrival
        ensures calls { Arrives result (calls self.old) (calls self.new) }
        ensures same { faults self.new ≡ faults self.old };

    /// Sends all these bytes to a workstation, or fails.
    fn send(&mut self, to: Ws, bytes: &[u8]) -> Result<(), Failed>
        ensures calls { Sends (record { to = to; bytes = bytes.now; ok = is_ok result }) (calls self.old) (calls self.new) }
        ensures cause { HasCause (faults self.old) (faults self.new) result };

    /// Sends all these bytes to the client whose bytes came last, or fails.
    fn reply(&mut self, bytes: &[u8]) -> Result<(), Failed>
        ensures calls { Replies (record { bytes = bytes.now; ok = is_ok result }) (calls self.old) (calls self.new) }
        ensures cause { HasCause (faults self.old) (faults self.new) result };

    /// Asks for a link to begin. Whether it did comes as `Up`.
    fn raise(&mut self, to: Ws)
        ensures calls { Asks (Raise to) (calls self.old) (calls self.new) }
        ensures same { faults self.new ≡ faults self.old };

    /// Asks for a link to end. Whether it did comes as `Down`.
    fn close(&mut self, to: Ws)
        ensures calls { Asks (Close to) (calls self.old) (calls self.new) }
        ensures same { faults self.new ≡ faults self.old };
}
