//! The links of a node over TCP.
ghost use Rattle.std.specs.Prelude.{None};

use crate::connections::Connections;
use base_types::{Peers, Ws};
use node_log::{Commons, counted, counted_alone};
use outside::{Arrival, Failed, Link};
use std::alloc::Global;
use std::fs::{File, Files};
use std::net::Net;
use std::random::RandomSource;
use std::time::Clock;

/// The links of a node, or of a client, over TCP.
///
/// *Without a key.* A connection begins with the bytes `TWS1` and the number of who calls in two bytes, 65535 for a client.
/// Nobody proves who he is: whoever reaches the port is taken for the workstation that he says he is.
///
/// *With a key.* Where a file `tws.key` is in the current folder, each connection begins with `TWS2`, and both ends prove
/// that they know its text before anything else is taken (`seals`). All that follows goes in records with a code each, so
/// that nothing can be put in, changed, repeated or left out. What is sent can still be read. A file that is another
/// user's, that others may read or write, or whose text is too short or too long makes `begin` fail.
///
/// *Who calls.* A node listens on its own address. Where it cannot, `begin` fails, and each poll tries again every 2
/// seconds; until then it calls nobody. It calls its hop, and each workstation that was raised, as long as there is no
/// connection: in a poll, one workstation a poll, and the same one again after 2 seconds where it has the lower number and
/// after 4 seconds where it has the higher one. So a lost link comes back once the other end is there, and two that called
/// each other at the same time do not go on doing so. `close` ends a connection, and not the calls.
///
/// *Which connection counts.* The last one that a workstation made, or that was made to it: it takes the place of the one
/// before, which comes as `Down` and then `Up`. Who calls again has lost the former connection or has given it up, often
/// before this end can know; and the former one is closed, so the other end sees that too. A call that is not answered yet
/// is given up for a connection that the other end makes.
///
/// *Who is let in.* Any workstation of which there is an address, and clients. Greetings and commands may come in pieces.
/// A caller is dropped after 5 seconds without them, at a wrong greeting or proof, and at a frame longer than a command's.
/// At most 64 are there: where one more comes, that one of those who have shown least goes who came first. A client gets
/// one reply, and its connection is closed.
///
/// *Times.* A poll waits up to 50 milliseconds, and for a call up to 200 milliseconds more for each address of the host,
/// of which four are tried; a client waits 2 seconds for each in `begin`, and under a key 5 seconds for the proof. No
/// other call waits. A send or a reply is taken where no more than 33,554,432 bytes wait, and goes out as the other end
/// takes it; a piece that waits already is not taken twice; where that takes nothing for 10 seconds the connection ends.
/// The system ends a connection whose other end is gone without a word, within some 25 seconds. Under a key each end sends
/// a record every 5 seconds, and a connection over which none came for 20 seconds ends. The look-up of a host's name, in
/// `begin` and in each call, takes as long as the system's resolver takes, which nothing here bounds: addresses in numbers
/// need none.
#[derive(Drop)]
pub struct TcpLink<R: Net> {
    connections: Connections<R>,
    faults: u64,
}

impl<R: Net + Clock + Files<File = File> + RandomSource + Drop> TcpLink<R> {
    /// Links that have not begun. They take no memory yet, and their polls bring nothing.
    pub fn new(alloc: Global, rt: R, commons: Commons<R>) -> Self {
        TcpLink {
            connections: Connections::new(alloc, rt, commons),
            faults: 0,
        }
    }
}

impl<R: Net + Clock + Files<File = File> + RandomSource + Drop> Link for TcpLink<R> {
    ghost calls = { λ _. record { begun = None; arrived = None; sent = None; replied = None; asked = None } };

    ghost faults = { λ l. l.faults };

    /// It fails where the file of the key is there and is no good. A node fails where it or its hop has no address among
    /// these, where it cannot listen, and for want of memory; a client where the workstation does not answer. What was begun
    /// before has ended. A node that alone could not listen tries that again in its polls.
    fn begin(&mut self, me: Option<Ws>, hop: Option<Ws>, peers: &Peers) -> Result<(), Failed> {
        let begun = match me {
            Some(me) => self.connections.begin_node(me, hop, peers),
            None => self.connections.begin_client(peers),
        };
        counted(&mut self.faults, self.connections.commons(), "begin", begun)
    }

    fn poll(&mut self) -> Arrival {
        self.connections.poll()
    }

    /// It fails where there is no connection, where that is found gone, and where too much waits already.
    fn send(&mut self, to: Ws, bytes: &[u8]) -> Result<(), Failed> {
        let sent = self.connections.send(to, bytes);
        counted_alone(&mut self.faults, sent)
    }

    /// It fails where no client waits, and where it is found gone.
    fn reply(&mut self, bytes: &[u8]) -> Result<(), Failed> {
        let replied = self.connections.reply(bytes);
        counted(
            &mut self.faults,
            self.connections.commons(),
            "reply",
            replied,
        )
    }

    fn raise(&mut self, to: Ws) {
        if let Some(line) = self.connections.line_to(to) {
            line.want();
        }
    }

    fn close(&mut self, to: Ws) {
        if let Some(line) = self.connections.line_to(to) {
            line.close();
        }
    }
}
