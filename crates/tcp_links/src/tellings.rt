//! What the log is told of links and callers.

use crate::lines::Line;
use base_types::Peer;
use node_log::{Commons, Field, Topic, Value, cause_of};
use outside::Arrival;
use std::fs::{File, Files};
use std::io;
use std::io::{Read, Write};
use std::net::{OpenStream, SocketAddr};
use std::time::Clock;

/// Tells the log of a caller who could not be let in, since the system says this.
pub fn tell_unaccepted<R: Files<File = File> + Clock + Drop>(
    commons: &Commons<R>,
    error: &io::Error,
) {
    commons.tell_rarely(Topic::Unaccepted, "unaccepted", &[cause_of(error)]);
}

/// Writes a line of the log about a workstation.
pub fn tell_of<R: Files<File = File> + Clock + Drop>(
    commons: &Commons<R>,
    word: &str,
    peer: &Peer,
    fields: &[Field<'static>],
) {
    let who = [
        ("ws", Value::Number(u64::from(peer.ws.0))),
        ("host", Value::Text(peer.host.as_str())),
        ("port", Value::Number(u64::from(peer.port))),
    ];
    commons.tell_both(word, &who, fields);
}

/// Tells the log of a caller who was not let in.
pub fn refuse<R: Files<File = File> + Clock + Drop>(
    commons: &Commons<R>,
    address: &SocketAddr,
    why: &'static str,
) {
    commons.tell_rarely(
        Topic::Refused,
        "refused",
        &[
            ("from", Value::Address(*address)),
            ("why", Value::Word(why)),
        ],
    );
}

/// Writes a line of the log where a link began or ended.
pub fn tell_arrival<R: Files<File = File> + Clock + Drop, S: Read + Write + OpenStream + Drop>(
    commons: &Commons<R>,
    line: &Line<S>,
    arrival: &Arrival,
) {
    let why = Value::Word(line.why());
    match arrival {
        Arrival::Up(_) => tell_of(commons, "up", line.peer(), &[("by", why)]),
        Arrival::Down(_) => match line.cause() {
            Some(cause) => tell_of(commons, "down", line.peer(), &[("why", why), cause]),
            None => tell_of(commons, "down", line.peer(), &[("why", why)]),
        },
        _ => {}
    }
}

/// Tells the log of a workstation that did not prove that it knows the key.
pub fn tell_unproved<R: Files<File = File> + Clock + Drop>(
    commons: &Commons<R>,
    peer: &Peer,
    why: &'static str,
) {
    commons.tell_rarely(
        Topic::Unproved,
        "unproved",
        &[
            ("ws", Value::Number(u64::from(peer.ws.0))),
            ("host", Value::Text(peer.host.as_str())),
            ("port", Value::Number(u64::from(peer.port))),
            ("why", Value::Word(why)),
        ],
    );
}
