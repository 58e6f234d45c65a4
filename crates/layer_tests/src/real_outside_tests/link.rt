//! The links of nodes and clients, over loopback.
use base_types::{Items, NoMemory, Peer, Peers, Text, Ws};
use outside::{Arrival, Link};
use real_outside::{Commons, TcpLink};
use std::alloc::Global;
use std::io;
use std::io::Write;
use std::net::{Net, OpenListener, TcpListener, TcpStream};
use std::test::Fail;

const M: Ws = Ws(0);

const A: Ws = Ws(1);

/// What is sent.
const BYTES: &[u8] = b"abc";

/// A port that nobody listens on.
fn free_port<R: Net>(rt: &R) -> io::Result<u16> {
    let listener = TcpListener::bind(rt, "127.0.0.1:0")?;
    Ok(listener.local_addr()?.port())
}

/// The addresses on this machine of the workstations from the first on, at these ports.
fn peers(alloc: Global, ports: &[u16]) -> Result<Peers, NoMemory> {
    let mut peers = Items::new(alloc);
    for (port, number) in ports.iter().zip(0..) {
        peers.push(Peer {
            ws: Ws(number),
            host: Text::of(alloc, "127.0.0.1")?,
            port: *port,
        })?;
    }
    Ok(peers)
}

/// What comes within some ten seconds.
fn next<L: Link>(link: &mut L) -> Arrival {
    for _ in 0..200 {
        match link.poll() {
            Arrival::Nothing => {}
            arrival => return arrival,
        }
    }
    Arrival::Nothing
}

fn is_up(arrival: &Arrival, number: u16) -> bool {
    matches!(arrival, Arrival::Up(ws) if ws.0 == number)
}

/// Whether the three bytes come from this workstation.
fn brings<L: Link>(link: &mut L, number: u16) -> bool {
    match next(link) {
        Arrival::Bytes(ws, bytes) => ws.0 == number && bytes.as_slice() == BYTES,
        _ => false,
    }
}

/// Whether the link begins at both ends, and bytes go both ways.
fn talk<L: Link>(master: &mut L, agent: &mut L) -> bool {
    is_up(&next(agent), 0)
        && is_up(&next(master), 1)
        && agent.send(M, BYTES).is_ok()
        && brings(master, 1)
        && master.send(A, BYTES).is_ok()
        && brings(agent, 0)
}

#[test]
fn an_agent_finds_its_master(rt: HostRuntime) -> Result<(), Fail> {
    let alloc = rt.alloc();
    let of_both = peers(alloc, &[free_port(&rt)?, free_port(&rt)?])?;
    let mut agent = TcpLink::new(alloc, rt, Commons::new(alloc, rt, "OFLINKS")?);
    let mut master = TcpLink::new(alloc, rt, Commons::new(alloc, rt, "OFLINKS")?);
    assert!(rt; agent.begin(Some(A), Some(M), &of_both).is_ok());
    assert!(rt; agent.send(M, b"nobody").is_err());
    assert!(rt; master.begin(Some(M), None, &of_both).is_ok());
    assert!(rt; talk(&mut master, &mut agent));
    drop(master);
    let told = next(&mut agent);
    assert!(rt; matches!(told, Arrival::Down(_)));
    Ok(())
}

/// Whether one of twenty pieces of four megabytes is refused, each of which is another one.
fn is_bounded<L: Link>(alloc: Global, link: &mut L) -> Result<bool, NoMemory> {
    for value in 0..20u8 {
        let Ok(piece) = Vec::from_elem(alloc, value, 4_000_000) else {
            return Err(NoMemory);
        };
        if link.send(A, piece.as_slice()).is_err() {
            return Ok(true);
        }
    }
    Ok(false)
}

#[test]
fn what_waits_for_one_who_reads_nothing_is_bounded(rt: HostRuntime) -> Result<(), Fail> {
    let alloc = rt.alloc();
    let port = free_port(&rt)?;
    let of_both = peers(alloc, &[port, free_port(&rt)?])?;
    let mut master = TcpLink::new(alloc, rt, Commons::new(alloc, rt, "OFLINKS")?);
    assert!(rt; master.begin(Some(M), None, &of_both).is_ok());
    let mut silent = TcpStream::connect(&rt, ("127.0.0.1", port))?;
    silent.write_all(b"TWS1\0\x01")?;
    assert!(rt; is_up(&next(&mut master), 1));
    assert!(rt; is_bounded(alloc, &mut master)?);
    // what is refused ends no link
    let told = master.poll();
    assert!(rt; matches!(told, Arrival::Nothing));
    Ok(())
}
