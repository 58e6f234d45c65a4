// Links in memory.
ghost use Rattle.std.specs.Prelude.{◌≡◌, ◌⊎◌, ◌||◌, not, length, IfOk, is_ok, is_err};
ghost use Rattle.outside.specs.Arrivals.{Arrives};
ghost use Rattle.outside.specs.Calls.{Begins, Sends, Replies, Asks};
ghost use Rattle.outside.specs.Calls.Asked.{Raise, Close};
ghost use Rattle.outside.specs.Causes.{HasCause};
ghost use Rattle.outside.specs.declared.links.Arrival.TheVariants.{NoMemory as NoRoom};
ghost use Rattle.outside_mem.specs.Memory as spec;
ghost use Rattle.outside_mem.specs.Rooms.{nothing_in, no_items, fits};
ghost use Rattle.outside_mem.specs.Begun.{no_begun, peers_fit};
ghost use Rattle.outside_mem.specs.Links.{calls_of, is_want, next_arrival, after_begin, after_poll, after_send, after_reply, after_ask};
ghost use Rattle.outside_mem.specs.declared.links.Ask.TheVariants.{Raise as ToRaise, Close as ToClose};

use crate::begun::{Begun, BegunBy};
use crate::calls::Calls;
use crate::logs::Log;
use crate::rooms::Rows;
use base_types::{Copied, Items, NoMemory, Peers, Ws};
use outside::{Arrival, Failed, Link};
use std::alloc::Global;
use std::marker::Model;

/// Bytes were to be sent; they stand beside it.
#[derive(Clone, Copy, PartialEq)]
pub struct SentTo {
    pub to: Ws,
    /// Whether the call succeeded.
    pub ok: bool,
}

/// A link was asked to begin or to end.
#[derive(Clone, Copy, PartialEq, Eq)]
pub enum Ask {
    Raise(Ws),
    Close(Ws),
}

/// Links over which these arrivals come in turn and then nothing.
///
/// The calls whose numbers are listed, from 1, fail, as does one that passes the room; it then tells calls of that kind
/// no more. It tells what was raised and closed as long as there is room. Polls give copies and don't count; an arrival
/// `NoMemory` is passed over once it was given.
pub struct MemLink {
    arrivals: Items<Arrival>,
    at: usize,
    idle: u64,
    begun: Begun,
    sent: Rows<SentTo>,
    replied: Rows<bool>,
    asked: Log<Ask>,
    calls: Calls,
}

impl Drop for MemLink {
    fn drop(self) {
        let MemLink {
            arrivals: _arrivals,
            at: _at,
            idle: _idle,
            begun: _begun,
            sent: _sent,
            replied: _replied,
            asked: _asked,
            calls: _calls,
        } = self;
    }
}

impl Model for MemLink {
    ghost use Rattle.std.specs.Prelude.{◌≡◌, ◌≤◌, ◌<◌, length};
    ghost use Rattle.outside_mem.specs.Links.{LinkState};

    ghost Value = { LinkState };

    ghost view = { λ m. record {
      arrivals = m.arrivals;
      at = m.at;
      idle = m.idle;
      begun = m.begun;
      sent = m.sent;
      replied = m.replied;
      asked = m.asked;
      calls = m.calls;
    } };

    ghost invariant = { λ m. (m.at ≤ length m.arrivals) × (0 < m.idle → m.at ≡ length m.arrivals) };
}

impl MemLink {
    /// Links with room for so many calls of each kind, for as many addresses, and for as many bytes in each. `NoMemory`
    /// where there is none.
    pub fn new(
        alloc: Global,
        arrivals: Items<Arrival>,
        fails: Items<u32>,
        room: u32,
    ) -> Result<Self, NoMemory>
        ensures value { IfOk result (λ m. m ≡ record {
          arrivals = arrivals;
          at = 0;
          idle = 0;
          begun = no_begun room;
          sent = nothing_in room;
          replied = nothing_in room;
          asked = no_items room;
          calls = spec.no_calls fails;
        }) }
        ensures faults { IfOk result (λ m. ⟦<MemLink as Link>⟧.faults m ≡ 0) }
    {
        let begun = Begun::new(alloc, room)?;
        let sent = Rows::new(alloc, room)?;
        let replied = Rows::new(alloc, room)?;
        Ok(MemLink {
            arrivals,
            at: 0,
            idle: 0,
            begun,
            sent,
            replied,
            asked: Log::new(alloc, room)?,
            calls: Calls::new(fails),
        })
    }

    /// The calls of `begin` that are kept.
    pub fn begun(&self) -> &Begun
        ensures { result.now ≡ self.now.begun }
    {
        &self.begun
    }

    /// The calls of `send` that are kept, with their bytes.
    pub fn sent(&self) -> &Rows<SentTo>
        ensures { result.now ≡ self.now.sent }
    {
        &self.sent
    }

    /// The calls of `reply` that are kept: whether each succeeded, and its bytes.
    pub fn replied(&self) -> &Rows<bool>
        ensures { result.now ≡ self.now.replied }
    {
        &self.replied
    }

    /// The calls of `raise` and `close` that are kept.
    pub fn asked(&self) -> &[Ask]
        ensures { result.now ≡ self.now.asked.items }
    {
        self.asked.items()
    }
}

/// A copy of what arrived. `NoMemory` where there is none for it.
fn copy_of(arrival: &Arrival) -> Arrival
    ensures { (result ≡ arrival.now) ⊎ (result ≡ NoRoom) }
{
    match arrival {
        Arrival::Bytes(from, bytes) => match bytes.copy() {
            Ok(copy) => Arrival::Bytes(*from, copy),
            Err(_) => Arrival::NoMemory,
        },
        Arrival::Up(ws) => Arrival::Up(*ws),
        Arrival::Down(ws) => Arrival::Down(*ws),
        Arrival::Client(bytes) => match bytes.copy() {
            Ok(copy) => Arrival::Client(copy),
            Err(_) => Arrival::NoMemory,
        },
        Arrival::Nothing => Arrival::Nothing,
        Arrival::NoMemory => Arrival::NoMemory,
    }
}

/// Whether it says that there was no memory.
fn is_no_memory(arrival: &Arrival) -> bool
    ensures { result ≡ is_want arrival.now }
{
    matches!(arrival, Arrival::NoMemory)
}

impl Link for MemLink {
    ghost calls = { calls_of };

    ghost faults = { λ m. m.calls.faults };

    /// It fails exactly where the call is listed or would pass the room.
    #[tactic(auto, using(crate::proofs::Begins::begun_more))]
    fn begin(&mut self, me: Option<Ws>, hop: Option<Ws>, peers: &Peers) -> Result<(), Failed>
        ensures calls { Begins (record { me = me; hop = hop; peers = peers.now; ok = is_ok result }) (calls_of self.old) (calls_of self.new) }
        ensures cause { HasCause self.old.calls.faults self.new.calls.faults result }

        // Past the trait's clauses: when the call fails, and what it leaves.
        ensures listed { is_err result ≡ (spec.is_next_listed self.old.calls || not (peers_fit peers.now self.old.begun)) }
        ensures after { self.new ≡ after_begin me hop peers.now self.old }
    {
        if !self.begun.has_room(peers.as_slice()) {
            self.begun.miss();
            return Err(self.calls.fail());
        }
        let ok = !self.calls.next_is_listed();
        self.begun.add(BegunBy { me, hop, ok }, peers.as_slice());
        if !ok {
            return Err(self.calls.fail());
        }
        self.calls.succeed();
        Ok(())
    }

    /// Gives the next arrival, or says that there is no memory for it.
    fn poll(&mut self) -> Arrival
        ensures calls { Arrives result (calls_of self.old) (calls_of self.new) }
        ensures same { self.new.calls.faults ≡ self.old.calls.faults }

        // Past the trait's clauses: what comes, and what it leaves.
        ensures answer { (result ≡ next_arrival self.old) ⊎ (result ≡ NoRoom) }
        ensures after { self.new ≡ after_poll result self.old }
    {
        let arrivals = self.arrivals.as_slice();
        let Some(arrival) = arrivals.get(self.at) else {
            self.idle = self.idle.saturating_add(1);
            return Arrival::Nothing;
        };
        if is_no_memory(arrival) {
            self.at += 1;
            return Arrival::NoMemory;
        }
        let copy = copy_of(arrival);
        if is_no_memory(&copy) {
            return copy;
        }
        self.at += 1;
        copy
    }

    /// It fails exactly where the call is listed or would pass the room.
    fn send(&mut self, to: Ws, bytes: &[u8]) -> Result<(), Failed>
        ensures calls { Sends (record { to = to; bytes = bytes.now; ok = is_ok result }) (calls_of self.old) (calls_of self.new) }
        ensures cause { HasCause self.old.calls.faults self.new.calls.faults result }

        // Past the trait's clauses: when the call fails, and what it leaves.
        ensures listed { is_err result ≡ (spec.is_next_listed self.old.calls || not (fits (length bytes.now) self.old.sent)) }
        ensures after { self.new ≡ after_send to bytes.now self.old }
    {
        if !self.sent.has_room(bytes.len()) {
            self.sent.miss();
            return Err(self.calls.fail());
        }
        let ok = !self.calls.next_is_listed();
        self.sent.add(SentTo { to, ok }, bytes);
        if !ok {
            return Err(self.calls.fail());
        }
        self.calls.succeed();
        Ok(())
    }

    /// It fails exactly where the call is listed or would pass the room.
    fn reply(&mut self, bytes: &[u8]) -> Result<(), Failed>
        ensures calls { Replies (record { bytes = bytes.now; ok = is_ok result }) (calls_of self.old) (calls_of self.new) }
        ensures cause { HasCause self.old.calls.faults self.new.calls.faults result }

        // Past the trait's clauses: when the call fails, and what it leaves.
        ensures listed { is_err result ≡ (spec.is_next_listed self.old.calls || not (fits (length bytes.now) self.old.replied)) }
        ensures after { self.new ≡ after_reply bytes.now self.old }
    {
        if !self.replied.has_room(bytes.len()) {
            self.replied.miss();
            return Err(self.calls.fail());
        }
        let ok = !self.calls.next_is_listed();
        self.replied.add(ok, bytes);
        if !ok {
            return Err(self.calls.fail());
        }
        self.calls.succeed();
        Ok(())
    }

    fn raise(&mut self, to: Ws)
        ensures calls { Asks (Raise to) (calls_of self.old) (calls_of self.new) }
        ensures same { self.new.calls.faults ≡ self.old.calls.faults }

        // Past the trait's clauses: what it leaves.
        ensures after { self.new ≡ after_ask (ToRaise to) self.old }
    {
        self.asked.note(Ask::Raise(to));
    }

    fn close(&mut self, to: Ws)
        ensures calls { Asks (Close to) (calls_of self.old) (calls_of self.new) }
        ensures same { self.new.calls.faults ≡ self.old.calls.faults }

        // Past the trait's clauses: what it leaves.
        ensures after { self.new ≡ after_ask (ToClose to) self.old }
    {
        self.asked.note(Ask::Close(to));
    }
}
