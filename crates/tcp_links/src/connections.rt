//! All connections of a node or of a client.

use crate::addresses::LookUps;
use crate::callers::{Callers, Heard};
use crate::clients::Clients;
use crate::homes::Home;
use crate::keys::read_key;
use crate::lines::Line;
use crate::neighbours::{Neighbours, copy_of};
use crate::rounds::Round;
use crate::seals::NetworkKey;
use crate::streams::{CLIENT, is_waiting, set_up};
use crate::tellings::{refuse, tell_of, tell_unaccepted};
use base_types::{Peers, Ws};
use node_log::{Commons, Topic, Value, Wait, cause_of};
use outside::Arrival;
use std::alloc::Global;
use std::fs::{File, Files};
use std::io::ErrorKind;
use std::net::Net;
use std::random::RandomSource;
use std::time::{Clock, Duration};
use std::{io, thread};

/// The most bytes that one arrival has.
const MOST_BYTES: usize = 65_536;

/// How many are let in in one round.
const MOST_ACCEPTED: u32 = 16;

/// How many rounds a poll takes in which nothing comes, and how many milliseconds it waits after each.
const ROUNDS: u32 = 5;

const ROUND: u64 = 10;

/// How many milliseconds an address has to answer a node.
const PATIENCE: u64 = 200;

/// How many milliseconds it has to answer a client.
const CLIENTS_PATIENCE: u64 = 2_000;

/// How many rounds a client waits until the workstation has proved that it knows the key.
const CLIENTS_ROUNDS: u32 = 500;

/// All connections of a node or of a client.
#[derive(Drop)]
pub struct Connections<R: Net> {
    rt: R,
    commons: Commons<R>,
    round: Round,
    /// Where a node listens; a client has none.
    home: Option<Home<R>>,
    look_ups: LookUps,
    neighbours: Neighbours<R::Stream>,
    callers: Callers<R::Stream>,
    clients: Clients<R::Stream>,
    buffer: Vec<u8>,
    /// Whether the callers came first in the last look.
    callers_first: bool,
}

impl<R: Net + Clock + Files<File = File> + RandomSource + Drop> Connections<R> {
    /// No connections. They take no memory yet.
    pub fn new(alloc: Global, rt: R, commons: Commons<R>) -> Self {
        Connections {
            rt,
            commons,
            round: Round {
                alloc,
                own: CLIENT,
                key: None,
                now: Duration::ZERO,
            },
            home: None,
            look_ups: LookUps::none(),
            neighbours: Neighbours::none(alloc),
            callers: Callers::none(alloc),
            clients: Clients::none(alloc),
            buffer: Vec::new(alloc),
            callers_first: false,
        }
    }

    /// What it has in common with the other objects of the node.
    pub fn commons(&self) -> &Commons<R> {
        &self.commons
    }

    /// Begins as a node: listens on its own address, and calls the workstation to connect to once it is polled.
    pub fn begin_node(&mut self, me: Ws, hop: Option<Ws>, peers: &Peers) -> io::Result<()> {
        self.commons.open_log();
        self.begin(me, peers)?;
        if let Some(hop) = hop {
            match self.neighbours.line_to(hop) {
                Some(line) => line.want(),
                None => return Err(ErrorKind::NotFound.into()),
            }
        }
        self.round.key = key_of_network(self.round.alloc, &self.rt, &self.commons)?;
        self.read_clock();
        self.open_home(me, peers)
    }

    /// Ends what was begun before, and takes the memory for the lines to these workstations and for those who call.
    fn begin(&mut self, me: Ws, peers: &Peers) -> io::Result<()> {
        self.home = None;
        self.round.own = me.0;
        self.round.key = None;
        self.neighbours = Neighbours::none(self.round.alloc);
        self.neighbours = Neighbours::new(self.round.alloc, peers, me)?;
        self.callers = Callers::new(self.round.alloc)?;
        self.clients = Clients::new(self.round.alloc)?;
        self.buffer = Vec::from_elem(self.round.alloc, 0u8, MOST_BYTES)?;
        Ok(())
    }

    /// Listens on the own address among these.
    fn open_home(&mut self, me: Ws, peers: &Peers) -> io::Result<()> {
        let Some(own) = peers.as_slice().iter().find(|peer| peer.ws == me) else {
            return Err(ErrorKind::NotFound.into());
        };
        let is_keyed = self.round.key.is_some();
        let mut home = Home::new(self.round.alloc, copy_of(own)?, is_keyed);
        let listens = home.listen(&self.rt, &self.commons, &mut self.look_ups, self.round.now);
        self.home = Some(home);
        listens
    }

    /// Reads the monotonic clock. Where it cannot be read the last reading stands.
    fn read_clock(&mut self) {
        if let Ok(now) = self.rt.monotonic() {
            self.round.now = now;
        }
    }

    /// Begins as a client: connects to the only workstation of which there is an address.
    pub fn begin_client(&mut self, peers: &Peers) -> io::Result<()> {
        let Some(peer) = peers.get(0) else {
            return Err(ErrorKind::NotFound.into());
        };
        self.begin(Ws(CLIENT), peers)?;
        self.round.key = read_key(self.round.alloc, &self.rt)?;
        self.read_clock();
        match self.neighbours.line_to(peer.ws) {
            Some(line) => call_as_client(&self.rt, &self.round, line),
            None => Err(ErrorKind::NotFound.into()),
        }
    }

    /// What comes next, or nothing: at once where the node did something since the last poll, after a few milliseconds
    /// while a job runs, and else after 50.
    pub fn poll(&mut self) -> Arrival {
        self.read_clock();
        self.call_one();
        self.keep();
        let (rounds, wait) = match self.commons.wait() {
            Wait::Not => (0, 0),
            Wait::Short(wait) => (1, wait),
            Wait::Long => (ROUNDS, ROUND),
        };
        for _ in 0..rounds {
            match self.look() {
                Arrival::Nothing => {
                    thread::sleep(&self.rt, Duration::from_millis(wait));
                    self.keep();
                }
                arrival => return arrival,
            }
        }
        self.look()
    }

    /// Calls one workstation of those that are to be called now, where a name that has to be looked up may be. A node that
    /// does not listen tries that again, and calls nobody until it does: another node of its name may be there.
    fn call_one(&mut self) {
        let Some(home) = &mut self.home else {
            return;
        };
        let now = self.round.now;
        home.listen_again(&self.rt, &self.commons, &mut self.look_ups, now);
        if home.is_open()
            && let Some(line) = self
                .neighbours
                .next_due(&self.round, self.look_ups.may(now))
        {
            call(
                &self.rt,
                &self.commons,
                &self.round,
                &mut self.look_ups,
                line,
            );
        }
    }

    /// Goes on with all that waits for the other ends.
    fn keep(&mut self) {
        self.neighbours.keep(&self.commons, &self.round);
        self.clients.keep(self.round.now);
    }

    /// Lets in those who call.
    fn accept(&mut self) {
        let Some(home) = &self.home else {
            return;
        };
        for _ in 0..MOST_ACCEPTED {
            let Some((stream, address)) = home.accept(&self.commons) else {
                return;
            };
            match set_up(&stream) {
                Ok(()) => self
                    .callers
                    .add(&self.commons, &self.round, stream, address),
                Err(error) => tell_unaccepted(&self.commons, &error),
            }
        }
    }

    /// What has come, without waiting. The lines and the callers come first by turns.
    fn look(&mut self) -> Arrival {
        self.accept();
        self.callers_first = !self.callers_first;
        let first = if self.callers_first {
            self.hear()
        } else {
            self.arrival()
        };
        match first {
            Arrival::Nothing => {}
            arrival => return arrival,
        }
        if self.callers_first {
            self.arrival()
        } else {
            self.hear()
        }
    }

    /// What has come over the lines.
    fn arrival(&mut self) -> Arrival {
        self.neighbours
            .arrival(&self.commons, &self.round, self.buffer.as_mut_slice())
    }

    /// What a caller asks. One that is a workstation gets its line.
    fn hear(&mut self) -> Arrival {
        let heard = self.callers.hear(
            &self.rt,
            &self.commons,
            &self.round,
            self.buffer.as_mut_slice(),
        );
        match heard {
            Heard::Nothing => Arrival::Nothing,
            Heard::NoMemory => Arrival::NoMemory,
            Heard::Workstation(ws, channel, address) => {
                if !self.neighbours.join(ws, channel) {
                    refuse(&self.commons, &address, "number");
                }
                Arrival::Nothing
            }
            Heard::Client(channel, bytes) => {
                self.clients.hear(channel);
                Arrival::Client(bytes)
            }
        }
    }

    /// Takes all these bytes to be sent to a workstation, or fails.
    pub fn send(&mut self, to: Ws, bytes: &[u8]) -> io::Result<()> {
        let Some(line) = self.neighbours.line_to(to) else {
            return Err(ErrorKind::NotConnected.into());
        };
        let sent = line.send(bytes, self.round.now);
        if let Err(error) = &sent
            && is_waiting(error)
        {
            let who = ("ws", Value::Number(u64::from(to.0)));
            self.commons.tell_rarely(Topic::Full, "full", &[who]);
        }
        sent
    }

    /// Takes all these bytes to be sent to the client that asked last, or fails. The client is then done.
    pub fn reply(&mut self, bytes: &[u8]) -> io::Result<()> {
        self.clients.reply(bytes, self.round.now)
    }

    /// The line to a workstation.
    pub fn line_to(&mut self, ws: Ws) -> Option<&mut Line<R::Stream>> {
        self.neighbours.line_to(ws)
    }
}

/// The key of the network, where there is one. Why it cannot be used is told to the log.
fn key_of_network<R: Files<File = File> + Clock + Drop>(
    alloc: Global,
    rt: &R,
    commons: &Commons<R>,
) -> io::Result<Option<NetworkKey>> {
    let key = read_key(alloc, rt);
    if let Err(error) = &key {
        commons.tell("nokey", &[cause_of(error)]);
    }
    key
}

/// Calls the workstation of this line. A failure is told to the log where it is another than before.
fn call<R: Net + Clock + Files<File = File> + RandomSource + Drop>(
    rt: &R,
    commons: &Commons<R>,
    round: &Round,
    look_ups: &mut LookUps,
    line: &mut Line<R::Stream>,
) {
    let found = line.look_up(rt, round.now);
    if !matches!(found, Ok(false)) {
        look_ups.note(round.now, rt.monotonic().unwrap_or(round.now));
    }
    let called = match found {
        Ok(_) => line.call(rt, round, PATIENCE),
        Err(error) => Err(error),
    };
    if let Err(error) = called
        && line.is_new_failure(&error)
    {
        tell_of(commons, "uncalled", line.peer(), &[cause_of(&error)]);
    }
}

/// Calls a workstation as a client, and waits until it has proved that it knows the key, where there is one.
fn call_as_client<R: Net + Clock + RandomSource>(
    rt: &R,
    round: &Round,
    line: &mut Line<R::Stream>,
) -> io::Result<()> {
    let _looked_up = line.look_up(rt, round.now)?;
    line.call(rt, round, CLIENTS_PATIENCE)?;
    match &round.key {
        Some(key) => wait_for_answer(rt, round, key, line),
        None => Ok(()),
    }
}

/// Waits until the workstation that a client calls has proved that it knows the key.
fn wait_for_answer<R: Net + Clock>(
    rt: &R,
    round: &Round,
    key: &NetworkKey,
    line: &mut Line<R::Stream>,
) -> io::Result<()> {
    for _ in 0..CLIENTS_ROUNDS {
        if line.look_for_answer(round.alloc, key, round.now).is_some() {
            break;
        }
        if line.is_joined() {
            return Ok(());
        }
        thread::sleep(rt, Duration::from_millis(ROUND));
    }
    Err(ErrorKind::NotConnected.into())
}
