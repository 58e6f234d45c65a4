//! Those who called and have not said yet who they are, or what they ask.

use crate::channels::Channel;
use crate::rounds::Round;
use crate::seals::{CODE, HELLO, NONCE, NetworkKey, Talk, numbers_of};
use crate::streams::{CLIENT, Come, GREETING, Piece, caller_of};
use crate::tellings::refuse;
use crate::{seals, streams};
use base_types::{Bytes, Items, Ws};
use mail_frames::{BYTES_OF_LENGTH, LONGEST_COMMAND};
use node_log::Commons;
use sealed_records::Queue;
use std::alloc::{AllocError, Global};
use std::collections::VecDeque;
use std::fs::{File, Files};
use std::io::{Read, Write};
use std::net::{OpenStream, SocketAddr};
use std::random::RandomSource;
use std::time::{Clock, Duration};

/// How many may be there at a time.
const MOST: usize = 64;

/// How many seconds one may stay.
const PATIENCE: u64 = 5;

/// How far one who called has come.
#[derive(Drop)]
enum Stage {
    /// It has not greeted.
    New,
    /// It has greeted by this number under the key, and was answered.
    Answered(Talk, u16),
    /// It is a client.
    Asks,
}

/// One who called.
#[derive(Drop)]
struct Caller<S> {
    channel: Channel<S>,
    stage: Stage,
    /// What it has asked so far.
    asked: Queue,
    address: SocketAddr,
    since: Duration,
}

/// What a caller came to.
#[derive(Drop)]
enum Step {
    Stays,
    Workstation(Ws),
    Client(Bytes),
    /// It is not let in, for this reason: it is gone, or says what is not understood.
    Wrong(&'static str),
    /// There was no memory for what came.
    NoMemory,
}

/// What was heard from the callers.
#[derive(Drop)]
pub enum Heard<S> {
    Nothing,
    /// This one, from this address, is a workstation.
    Workstation(Ws, Channel<S>, SocketAddr),
    /// This one is a client, which asks by the bytes of a frame.
    Client(Channel<S>, Bytes),
    NoMemory,
}

impl<S: Read + Write + OpenStream + Drop> Caller<S> {
    /// How much it has shown: who has shown less has to go first.
    fn rank(&self) -> u8 {
        match &self.stage {
            Stage::New => 0,
            Stage::Answered(_, _) => 1,
            Stage::Asks => 2,
        }
    }

    /// It is known by this number.
    fn is_known(&mut self, number: u16) -> Step {
        if number == CLIENT {
            self.stage = Stage::Asks;
            Step::Stays
        } else {
            Step::Workstation(Ws(number))
        }
    }

    /// Hears a greeting without a key.
    fn greet(&mut self) -> Step {
        let greeting: [u8; GREETING] = match self.channel.take_piece(streams::MARK) {
            Piece::Whole(bytes) => bytes,
            Piece::Waits => return Step::Stays,
            Piece::Other => return Step::Wrong("greeting"),
            Piece::Gone => return Step::Wrong("gone"),
        };
        match caller_of(&greeting) {
            Some(number) => self.is_known(number),
            None => Step::Wrong("greeting"),
        }
    }

    /// Hears a greeting under a key, and answers it.
    fn answer<R: RandomSource>(&mut self, rt: &R, round: &Round, key: &NetworkKey) -> Step {
        let hello: [u8; HELLO] = match self.channel.take_piece(seals::MARK) {
            Piece::Whole(bytes) => bytes,
            Piece::Waits => return Step::Stays,
            Piece::Other => return Step::Wrong("greeting"),
            Piece::Gone => return Step::Wrong("gone"),
        };
        let Some((caller, called)) = numbers_of(&hello) else {
            return Step::Wrong("greeting");
        };
        if called != round.own || caller == round.own {
            return Step::Wrong("number");
        }
        let mut nonce = [0u8; NONCE];
        if rt.fill_bytes(&mut nonce).is_err() {
            return Step::Wrong("random");
        }
        let talk = key.talk(&hello, &nonce);
        if self.channel.greet(&talk.answer(&nonce)).is_err() {
            return Step::Wrong("gone");
        }
        self.stage = Stage::Answered(talk, caller);
        Step::Stays
    }

    /// Hears the proof that the caller knows the key.
    fn prove(&mut self, round: &Round, talk: &Talk, number: u16) -> Step {
        let proof: [u8; CODE] = match self.channel.take_piece(&[]) {
            Piece::Whole(bytes) => bytes,
            Piece::Waits => return Step::Stays,
            Piece::Other => return Step::Wrong("proof"),
            Piece::Gone => return Step::Wrong("gone"),
        };
        if !talk.is_proved(&proof) {
            return Step::Wrong("proof");
        }
        self.channel.seal(talk.calleds(), round.now);
        self.is_known(number)
    }

    /// Hears the first frame of a client, once it is there whole.
    fn question(&mut self, round: &Round, buffer: &mut [u8]) -> Step {
        match self.channel.take(round.alloc, buffer, round.now) {
            Come::Nothing => {}
            Come::Bytes(bytes) => {
                if self.asked.put(bytes.as_slice()).is_err() {
                    return Step::Wrong("memory");
                }
            }
            Come::End | Come::Lost(_) => return Step::Wrong("gone"),
            Come::Wrong => return Step::Wrong("record"),
            Come::NoMemory => return Step::NoMemory,
        }
        frame_in(round.alloc, self.asked.rest())
    }

    /// What the caller says next.
    fn step<R: RandomSource>(&mut self, rt: &R, round: &Round, buffer: &mut [u8]) -> Step {
        match &self.stage {
            Stage::New => match &round.key {
                Some(key) => self.answer(rt, round, key),
                None => self.greet(),
            },
            Stage::Answered(talk, number) => {
                let (talk, number) = (*talk, *number);
                self.prove(round, &talk, number)
            }
            Stage::Asks => self.question(round, buffer),
        }
    }
}

/// The frame of a client that begins these bytes, once it is there whole.
fn frame_in(alloc: Global, bytes: &[u8]) -> Step {
    let [a, b, c, d, ..] = bytes else {
        return Step::Stays;
    };
    let length = u32::from_be_bytes([*a, *b, *c, *d]);
    if length == 0 || length > LONGEST_COMMAND {
        return Step::Wrong("length");
    }
    let Some(frame) = bytes.get(..BYTES_OF_LENGTH + length as usize) else {
        return Step::Stays;
    };
    let mut copy = Vec::new(alloc);
    match copy.extend_from_slice(frame) {
        Ok(()) => Step::Client(Items::of_vec(copy)),
        Err(_) => Step::NoMemory,
    }
}

/// Those who called and have not said yet who they are, or what they ask: at most 64, each for five seconds.
#[derive(Drop)]
pub struct Callers<S> {
    waiting: VecDeque<Caller<S>>,
}

impl<S: Read + Write + OpenStream + Drop> Callers<S> {
    /// Nobody, with no room.
    pub fn none(alloc: Global) -> Self {
        Callers {
            waiting: VecDeque::new(alloc),
        }
    }

    /// Nobody yet, with room for all that may be there.
    pub fn new(alloc: Global) -> Result<Self, AllocError> {
        Ok(Callers {
            waiting: VecDeque::with_capacity(alloc, MOST)?,
        })
    }

    /// The place of the one who has to go where too many are there: of those who have shown least, the one that came first.
    fn place_to_leave(&self) -> usize {
        let mut found = 0;
        let mut least = u8::MAX;
        let mut first = Duration::MAX;
        for (place, caller) in self.waiting.iter().enumerate() {
            let rank = caller.rank();
            if rank < least || rank == least && caller.since < first {
                found = place;
                least = rank;
                first = caller.since;
            }
        }
        found
    }

    /// Adds one who called from this address. Where too many are there, one of them has to go: of those who have shown
    /// least, the one that came first.
    pub fn add<R: Files<File = File> + Clock + Drop>(
        &mut self,
        commons: &Commons<R>,
        round: &Round,
        stream: S,
        address: SocketAddr,
    ) {
        if self.waiting.len() >= MOST {
            let place = self.place_to_leave();
            if let Some(gone) = self.waiting.remove(place) {
                refuse(commons, &gone.address, "crowd");
            }
        }
        self.keep(Caller {
            channel: Channel::new(round.alloc, stream, round.now),
            stage: Stage::New,
            asked: Queue::new(round.alloc),
            address,
            since: round.now,
        });
    }

    /// Puts a caller behind the others, for whom there is room.
    fn keep(&mut self, caller: Caller<S>) {
        let _ = self.waiting.push_back(caller);
    }

    /// Listens to each of them once, until one is understood.
    pub fn hear<R: RandomSource + Files<File = File> + Clock + Drop>(
        &mut self,
        rt: &R,
        commons: &Commons<R>,
        round: &Round,
        buffer: &mut [u8],
    ) -> Heard<S> {
        for _ in 0..self.waiting.len() {
            let Some(mut caller) = self.waiting.pop_front() else {
                return Heard::Nothing;
            };
            match caller.step(rt, round, buffer) {
                Step::Stays => self.stay(commons, round, caller),
                Step::Wrong(why) => refuse(commons, &caller.address, why),
                Step::Workstation(ws) => {
                    return Heard::Workstation(ws, caller.channel, caller.address);
                }
                Step::Client(bytes) => return Heard::Client(caller.channel, bytes),
                Step::NoMemory => {
                    self.keep(caller);
                    return Heard::NoMemory;
                }
            }
        }
        Heard::Nothing
    }

    /// Keeps a caller who may still say something.
    fn stay<R: Files<File = File> + Clock + Drop>(
        &mut self,
        commons: &Commons<R>,
        round: &Round,
        caller: Caller<S>,
    ) {
        if round.now.saturating_sub(caller.since) < Duration::from_secs(PATIENCE) {
            self.keep(caller);
        } else {
            refuse(commons, &caller.address, "patience");
        }
    }
}
