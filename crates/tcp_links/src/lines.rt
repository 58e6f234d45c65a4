//! The line to another workstation.
ghost use Rattle.std.specs.Prelude.{◌≡◌, IfSome, IsNone, is_some, false};
ghost use Rattle.tcp_links.specs.Turns.{InTurn};

use crate::addresses::Addresses;
use crate::channels::Channel;
use crate::rounds::Round;
use crate::seals::{ANSWER, HELLO, MARK, NONCE, NetworkKey, Talk, hello_of};
use crate::streams::{Come, Piece, greeting, is_waiting, take_piece, write_at_once};
use base_types::{Peer, Ws};
use node_log::{Field, cause_of};
use outside::Arrival;
use std::alloc::Global;
use std::io;
use std::io::{ErrorKind, Read, Write};
use std::net::{Net, OpenStream};
use std::random::RandomSource;
use std::time::Duration;

/// How many seconds after a call a workstation with a lower number is called again.
const SHORT_WAIT: u64 = 2;

/// How many seconds after a call a workstation with a higher number is called again.
const LONG_WAIT: u64 = 4;

/// How many seconds the answer to a greeting under a key may take.
const PATIENCE: u64 = 5;

/// A workstation that was greeted under a key and has not answered.
#[derive(Drop)]
struct Greeted<S> {
    stream: S,
    hello: [u8; HELLO],
    since: Duration,
}

/// What a workstation that was greeted under a key has answered.
#[derive(Drop)]
enum Answer {
    /// It has not answered yet.
    Waits,
    /// It knows the key.
    Proves(Talk),
    /// It is not called further, for this reason.
    Wrong(&'static str),
}

/// What one that was greeted has answered.
fn answer_of<S: Read + OpenStream>(
    greeted: &mut Greeted<S>,
    key: &NetworkKey,
    now: Duration,
) -> Answer {
    let answer: [u8; ANSWER] = match take_piece(&mut greeted.stream, MARK) {
        Piece::Whole(answer) => answer,
        Piece::Waits => {
            if now.saturating_sub(greeted.since) >= Duration::from_secs(PATIENCE) {
                return Answer::Wrong("patience");
            }
            return Answer::Waits;
        }
        Piece::Other => return Answer::Wrong("answer"),
        Piece::Gone => return Answer::Wrong("gone"),
    };
    match key.answered(&greeted.hello, &answer) {
        Some(talk) => Answer::Proves(talk),
        None => Answer::Wrong("answer"),
    }
}

/// The line to another workstation: where it is reached, the connection, and what was told of it.
///
/// Beginnings and ends are told by turns, and bytes between them alone.
#[derive(Drop)]
pub struct Line<S> {
    peer: Peer,
    addresses: Addresses,
    channel: Option<Channel<S>>,
    greeted: Option<Greeted<S>>,
    /// Whether the connection was not told yet.
    fresh: bool,
    /// Whether a beginning was told last, and not an end.
    up: bool,
    /// Whether the workstation is called where there is no connection.
    wanted: bool,
    /// When it was called last.
    called: Option<Duration>,
    /// Why the last connection ended, or who made the one that is there.
    why: &'static str,
    /// What the system said where the last connection was lost.
    cause: Option<Field<'static>>,
    /// How the last call failed, where no connection came since.
    failed: Option<ErrorKind>,
}

impl<S: Read + Write + OpenStream + Drop> Line<S> {
    /// A line without a connection.
    pub fn new(alloc: Global, peer: Peer) -> Self
        ensures { result.up ≡ false }
    {
        Line {
            peer,
            addresses: Addresses::none(alloc),
            channel: None,
            greeted: None,
            fresh: false,
            up: false,
            wanted: false,
            called: None,
            why: "",
            cause: None,
            failed: None,
        }
    }

    /// The workstation at the other end.
    pub fn ws(&self) -> Ws
        ensures { result ≡ self.now.peer.ws }
    {
        self.peer.ws
    }

    /// From now on the workstation is called where there is no connection.
    pub fn want(&mut self)
        ensures { self.new.up ≡ self.old.up }
    {
        self.wanted = true;
    }

    /// Takes a new connection, in place of the old one: one that was called or that called.
    fn join(&mut self, channel: Channel<S>, by: &'static str)
        ensures { self.new.up ≡ self.old.up }
    {
        self.channel = Some(channel);
        self.fresh = true;
        self.why = by;
        self.cause = None;
        self.failed = None;
    }

    /// Takes a connection that the workstation made. A call of this end that is not answered yet is given up: its answer
    /// would take the place of this connection.
    pub fn take(&mut self, channel: Channel<S>)
        ensures { self.new.up ≡ self.old.up }
    {
        self.greeted = None;
        self.join(channel, "caller");
    }

    /// Lets the connection go, for this reason.
    fn end(&mut self, why: &'static str)
        ensures up { self.new.up ≡ self.old.up }
        ensures peer { self.new.peer.ws ≡ self.old.peer.ws }
        ensures gone { self.new.channel ≡ None }
    {
        self.channel = None;
        self.why = why;
        self.cause = None;
    }

    /// Lets the connection go, of which the system says this.
    fn lose(&mut self, error: &io::Error)
        ensures up { self.new.up ≡ self.old.up }
        ensures peer { self.new.peer.ws ≡ self.old.peer.ws }
        ensures gone { self.new.channel ≡ None }
    {
        self.end(why_lost(error));
        self.cause = Some(cause_of(error));
    }

    /// Closes the connection.
    pub fn close(&mut self)
        ensures { self.new.up ≡ self.old.up }
    {
        if self.channel.is_some() {
            self.end("closed");
        }
        self.greeted = None;
    }

    /// Who the workstation is, and where it is reached.
    pub fn peer(&self) -> &Peer {
        &self.peer
    }

    /// Why the last connection ended, or who made the one that is there.
    pub fn why(&self) -> &'static str {
        self.why
    }

    /// What the system said where the last connection was lost.
    pub fn cause(&self) -> Option<Field<'static>> {
        self.cause
    }

    /// Whether the name of its host has to be looked up before it is called.
    pub fn needs_look_up(&self) -> bool {
        self.addresses.need_look_up(&self.peer)
    }

    /// Whether a call failed in another way than the one before it.
    pub fn is_new_failure(&mut self, error: &io::Error) -> bool
        ensures { self.new.up ≡ self.old.up }
    {
        let kind = Some(error.kind());
        let is_new = self.failed != kind;
        self.failed = kind;
        is_new
    }

    /// Whether there is a connection.
    pub fn is_joined(&self) -> bool {
        self.channel.is_some()
    }

    /// Whether the workstation is to be called now, by one with this number.
    pub fn is_due(&self, caller: u16, now: Duration) -> bool {
        if !self.wanted || self.channel.is_some() || self.greeted.is_some() {
            return false;
        }
        let wait = if self.peer.ws.0 < caller {
            SHORT_WAIT
        } else {
            LONG_WAIT
        };
        match self.called {
            Some(called) => now.saturating_sub(called) >= Duration::from_secs(wait),
            None => true,
        }
    }

    /// Takes down where the workstation is reached, where that is not known. Tells whether a name was looked up.
    pub fn look_up<R: Net<Stream = S>>(&mut self, rt: &R, now: Duration) -> io::Result<bool>
        ensures { self.new.up ≡ self.old.up }
    {
        if !self.addresses.are_none() {
            return Ok(false);
        }
        self.called = Some(now);
        let is_name = self.addresses.need_look_up(&self.peer);
        self.addresses.find(rt, &self.peer)?;
        Ok(is_name)
    }

    /// Calls the workstation. It fails where none of its addresses answers within so many milliseconds. Under a key there is
    /// a connection once the answer to the greeting has come.
    pub fn call<R: Net<Stream = S> + RandomSource>(
        &mut self,
        rt: &R,
        round: &Round,
        patience: u64,
    ) -> io::Result<()>
        ensures { self.new.up ≡ self.old.up }
    {
        self.called = Some(round.now);
        let stream = self.addresses.connect(rt, patience)?;
        if round.key.is_some() {
            self.greet_by_key(rt, round, stream)
        } else {
            self.greet(round, stream)
        }
    }

    fn greet(&mut self, round: &Round, mut stream: S) -> io::Result<()>
        ensures { self.new.up ≡ self.old.up }
    {
        write_at_once(&mut stream, &greeting(round.own))?;
        let channel = Channel::new(round.alloc, stream, round.now);
        self.join(channel, "called");
        Ok(())
    }

    fn greet_by_key<R: RandomSource>(
        &mut self,
        rt: &R,
        round: &Round,
        mut stream: S,
    ) -> io::Result<()>
        ensures { self.new.up ≡ self.old.up }
    {
        let mut nonce = [0u8; NONCE];
        rt.fill_bytes(&mut nonce)?;
        let hello = hello_of(round.own, self.peer.ws.0, &nonce);
        write_at_once(&mut stream, &hello)?;
        self.greeted = Some(Greeted {
            stream,
            hello,
            since: round.now,
        });
        Ok(())
    }

    /// Looks for the answer to a greeting under this key. One that does not prove that the other end knows the key ends the
    /// call, and so does none within five seconds. Then this tells why.
    pub fn look_for_answer(
        &mut self,
        alloc: Global,
        key: &NetworkKey,
        now: Duration,
    ) -> Option<&'static str>
        ensures { self.new.up ≡ self.old.up }
    {
        let Some(greeted) = &mut self.greeted else {
            return None;
        };
        match answer_of(greeted, key, now) {
            Answer::Waits => None,
            Answer::Proves(talk) => self.prove(alloc, &talk, now),
            Answer::Wrong(why) => {
                self.greeted = None;
                Some(why)
            }
        }
    }

    /// Proves to the workstation that was greeted that this end knows the key too. The connection is then made.
    fn prove(&mut self, alloc: Global, talk: &Talk, now: Duration) -> Option<&'static str>
        ensures { self.new.up ≡ self.old.up }
    {
        let greeted = self.greeted.take()?;
        let mut stream = greeted.stream;
        if write_at_once(&mut stream, &talk.proof()).is_err() {
            return Some("gone");
        }
        let mut channel = Channel::new(alloc, stream, now);
        channel.seal(talk.callers(), now);
        self.join(channel, "called");
        None
    }

    /// What comes next over the line. Where it is to be, a connection under a key over which nothing came for twenty seconds
    /// counts as ended.
    pub fn arrival(
        &mut self,
        alloc: Global,
        buffer: &mut [u8],
        ends_silent: bool,
        now: Duration,
    ) -> Arrival
        ensures { InTurn self.old.peer.ws self.old.up result self.new.up }
    {
        if let Some(news) = self.news() {
            return news;
        }
        let Some(channel) = &mut self.channel else {
            return Arrival::Nothing;
        };
        match channel.take(alloc, buffer, now) {
            Come::Nothing => {
                if !ends_silent || !channel.is_silent(now) {
                    return Arrival::Nothing;
                }
                self.end("silent");
                self.news().unwrap_or(Arrival::Nothing)
            }
            Come::NoMemory => Arrival::NoMemory,
            Come::Bytes(bytes) => Arrival::Bytes(self.peer.ws, bytes),
            Come::End => {
                self.end("ended");
                self.news().unwrap_or(Arrival::Nothing)
            }
            Come::Lost(error) => {
                self.lose(&error);
                self.news().unwrap_or(Arrival::Nothing)
            }
            Come::Wrong => {
                self.end("record");
                self.news().unwrap_or(Arrival::Nothing)
            }
        }
    }

    /// Sends what waits, and a beat where there are any and it is due. Where the other end is found gone the connection is
    /// closed.
    pub fn keep(&mut self, beats: bool, now: Duration)
        ensures { self.new.up ≡ self.old.up }
    {
        let Some(channel) = &mut self.channel else {
            return;
        };
        let kept = if beats {
            channel.keep(now)
        } else {
            channel.flush(now)
        };
        if let Err(error) = kept {
            self.lose(&error);
        }
    }

    /// A beginning or an end that was not told yet. A new connection in place of another is told as the end of that one
    /// and then a beginning.
    fn news(&mut self) -> Option<Arrival>
        ensures told { IfSome result (λ told. InTurn self.old.peer.ws self.old.up told self.new.up) }
        ensures quiet { IsNone result → self.new.up ≡ self.old.up }
        ensures settled { IsNone result → self.new.up ≡ is_some self.new.channel }
        ensures same { self.new.peer.ws ≡ self.old.peer.ws }
    {
        let joined = self.channel.is_some();
        if self.up && (self.fresh || !joined) {
            self.up = false;
            return Some(Arrival::Down(self.peer.ws));
        }
        if !self.up && joined {
            self.up = true;
            self.fresh = false;
            return Some(Arrival::Up(self.peer.ws));
        }
        None
    }

    /// Takes all these bytes to be sent, or fails. Where the connection is found gone it is closed; where too much waits it
    /// stays.
    pub fn send(&mut self, bytes: &[u8], now: Duration) -> io::Result<()>
        ensures { self.new.up ≡ self.old.up }
    {
        let Some(channel) = &mut self.channel else {
            return Err(ErrorKind::NotConnected.into());
        };
        match channel.send(bytes, now) {
            Ok(()) => Ok(()),
            Err(error) if is_waiting(&error) => Err(error),
            Err(error) => {
                self.lose(&error);
                Err(error)
            }
        }
    }
}

/// Why a connection is lost of which the system says this.
fn why_lost(error: &io::Error) -> &'static str {
    match error.kind() {
        ErrorKind::TimedOut => "stalled",
        ErrorKind::OutOfMemory => "memory",
        _ => "lost",
    }
}
