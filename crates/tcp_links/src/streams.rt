//! One connection: how it begins, and how bytes go over it.

use base_types::{Bytes, Items};
use byteorder::{BigEndian, ByteOrder};
use libc::net::{
    IPPROTO_TCP, SO_KEEPALIVE, SOL_SOCKET, TCP_KEEPCNT, TCP_KEEPIDLE, TCP_KEEPINTVL,
    TCP_USER_TIMEOUT, setsockopt,
};
use std::alloc::Global;
use std::io;
use std::io::{ErrorKind, Read, Write};
use std::net::OpenStream;
use std::os::fd::AsRawFd;

/// The number by which a client calls itself.
pub const CLIENT: u16 = 65_535;

/// How many bytes a greeting has.
pub const GREETING: usize = 6;

/// The first bytes of each connection.
pub const MARK: &[u8] = b"TWS1";

/// After how many seconds without a word the system asks whether the other end is there, how many seconds apart, and how
/// often.
const IDLE: u32 = 10;

const BETWEEN: u32 = 5;

const PROBES: u32 = 3;

/// After how many milliseconds a connection ends whose bytes the other end does not confirm.
const UNHEARD: u32 = 20_000;

/// What has come over a connection.
#[derive(Drop)]
pub enum Come {
    Nothing,
    Bytes(Bytes),
    /// The other end closed the connection.
    End,
    /// The connection is lost, as the system says.
    Lost(io::Error),
    /// A record came that is not under the key of the connection.
    Wrong,
    /// There was no memory for what came; it is still to come.
    NoMemory,
}

/// Sets a new connection up: no call of it waits, small pieces go out at once, and the system looks whether the other
/// end is still there.
pub fn set_up<S: OpenStream + AsRawFd>(stream: &S) -> io::Result<()> {
    stream.set_nodelay(true)?;
    stream.set_nonblocking(true)?;
    let socket = stream.as_raw_fd();
    // Where the system knows no such option, the connection is as good without.
    let _kept = unsafe { setsockopt(socket, SOL_SOCKET, SO_KEEPALIVE, &value_of(1), 4) };
    let _idle = unsafe { setsockopt(socket, IPPROTO_TCP, TCP_KEEPIDLE, &value_of(IDLE), 4) };
    let _wait = unsafe { setsockopt(socket, IPPROTO_TCP, TCP_KEEPINTVL, &value_of(BETWEEN), 4) };
    let _most = unsafe { setsockopt(socket, IPPROTO_TCP, TCP_KEEPCNT, &value_of(PROBES), 4) };
    let _dead = unsafe { setsockopt(socket, IPPROTO_TCP, TCP_USER_TIMEOUT, &value_of(UNHEARD), 4) };
    Ok(())
}

/// A number as the value of an option.
fn value_of(number: u32) -> [u8; 16] {
    let [a, b, c, d] = number.to_ne_bytes();
    [a, b, c, d, 0, 0, 0, 0, 0, 0, 0, 0, 0, 0, 0, 0]
}

/// The bytes by which one greets without a key.
pub fn greeting(caller: u16) -> [u8; GREETING] {
    let mut bytes = *b"TWS1\0\0";
    BigEndian::write_u16(&mut bytes[4..], caller);
    bytes
}

/// The number by which a caller greets. None where these bytes are no greeting.
pub fn caller_of(bytes: &[u8]) -> Option<u16> {
    let number = bytes.strip_prefix(MARK)?;
    if number.len() < 2 {
        return None;
    }
    Some(BigEndian::read_u16(number))
}

/// Whether the call would have waited.
pub fn is_waiting(error: &io::Error) -> bool {
    matches!(error.kind(), ErrorKind::WouldBlock | ErrorKind::Interrupted)
}

/// Writes a short piece over a new connection, or fails. Nothing waits before it, so the system takes it at once.
pub fn write_at_once<S: Write>(stream: &mut S, bytes: &[u8]) -> io::Result<()> {
    match stream.write(bytes) {
        Ok(count) if count == bytes.len() => Ok(()),
        Ok(_) => Err(ErrorKind::WriteZero.into()),
        Err(error) => Err(error),
    }
}

/// What of a whole piece of so many bytes has come.
#[derive(Drop)]
pub enum Piece<const N: usize> {
    Whole([u8; N]),
    /// It is still to come.
    Waits,
    /// What has come is another one.
    Other,
    /// It does not come: the connection is gone.
    Gone,
}

/// Whether these bytes begin the mark, or begin with it.
fn may_begin(bytes: &[u8], mark: &[u8]) -> bool {
    bytes
        .iter()
        .zip(mark.iter())
        .all(|(byte, wanted)| byte == wanted)
}

/// Takes a piece that begins with this mark, once it is there whole.
pub fn take_piece<S: Read + OpenStream, const N: usize>(stream: &mut S, mark: &[u8]) -> Piece<N> {
    let mut bytes = [0u8; N];
    match stream.peek(&mut bytes) {
        Ok(0) => return Piece::Gone,
        Ok(count) if !may_begin(&bytes[..count], mark) => return Piece::Other,
        Ok(count) if count < N => return Piece::Waits,
        Ok(_) => {}
        Err(error) if is_waiting(&error) => return Piece::Waits,
        Err(_) => return Piece::Gone,
    }
    match stream.read(&mut bytes) {
        Ok(count) if count == N => Piece::Whole(bytes),
        _ => Piece::Gone,
    }
}

/// Takes what has come, up to the length of the buffer. Where there is no memory for it, it stays.
pub fn take_some<S: Read + OpenStream>(alloc: Global, stream: &mut S, buffer: &mut [u8]) -> Come {
    match stream.peek(buffer) {
        Ok(0) => Come::End,
        Ok(count) => take(alloc, stream, count),
        Err(error) => none_of(error),
    }
}

/// What has come where a call failed.
pub fn none_of(error: io::Error) -> Come {
    if is_waiting(&error) {
        Come::Nothing
    } else {
        Come::Lost(error)
    }
}

/// Takes so many bytes, which have come.
pub fn take<S: Read>(alloc: Global, stream: &mut S, count: usize) -> Come {
    let Ok(mut bytes) = Vec::from_elem(alloc, 0u8, count) else {
        return Come::NoMemory;
    };
    match stream.read(bytes.as_mut_slice()) {
        Ok(0) => Come::End,
        Ok(read) => {
            bytes.truncate(read);
            Come::Bytes(Items::of_vec(bytes))
        }
        Err(error) => none_of(error),
    }
}
