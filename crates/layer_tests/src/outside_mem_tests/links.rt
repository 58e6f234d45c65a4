//! Links in memory.
use base_types::{Items, Peer, Peers, Text, Ws};
use outside::{Arrival, Failed, Link};
use outside_mem::{Ask, BegunBy, MemLink, PeerAt, SentTo};
use std::alloc::Global;
use std::test::Fail;
use test_builders::{first_wrong, listed};

fn arrivals(alloc: Global) -> Result<Items<Arrival>, Fail> {
    let mut list = Items::new(alloc);
    list.push(Arrival::Up(Ws(1)))?;
    list.push(Arrival::Bytes(Ws(1), listed(alloc, &[9u8])?))?;
    list.push(Arrival::NoMemory)?;
    list.push(Arrival::Down(Ws(1)))?;
    Ok(list)
}

fn peers(alloc: Global) -> Result<Peers, Fail> {
    let mut list = Items::new(alloc);
    list.push(Peer {
        ws: Ws(0),
        host: Text::of(alloc, "mdm")?,
        port: 31111,
    })?;
    Ok(list)
}

/// Whether these bytes came from this workstation.
fn are_bytes(arrival: &Arrival, from: u16, wanted: &[u8]) -> bool {
    match arrival {
        Arrival::Bytes(w, bytes) => w.0 == from && bytes.as_slice() == wanted,
        _ => false,
    }
}

#[test]
fn arrivals_come_in_turn_and_then_nothing(rt: HostRuntime) -> Result<(), Fail> {
    let alloc = rt.alloc();
    let mut link = MemLink::new(alloc, arrivals(alloc)?, Items::new(alloc), 9)?;
    let right = [
        matches!(link.poll(), Arrival::Up(Ws(1))),
        are_bytes(&link.poll(), 1, &[9]),
        matches!(link.poll(), Arrival::NoMemory),
        matches!(link.poll(), Arrival::Down(Ws(1))),
        matches!(link.poll(), Arrival::Nothing),
        matches!(link.poll(), Arrival::Nothing),
    ];
    assert_eq!(rt; first_wrong(&right), None);
    Ok(())
}

fn tells_the_begin(link: &MemLink) -> bool {
    let begun = BegunBy {
        me: Some(Ws(1)),
        hop: Some(Ws(0)),
        ok: true,
    };
    match link.begun().get(0) {
        Some(call) => *call == begun,
        None => false,
    }
}

fn tells_the_address(link: &MemLink) -> bool {
    let address = PeerAt {
        ws: Ws(0),
        port: 31111,
    };
    match link.begun().peers().get(0) {
        Some((peer, host)) => *peer == address && host == b"mdm".as_slice(),
        None => false,
    }
}

fn tells_the_send(link: &MemLink) -> bool {
    let sent = SentTo {
        to: Ws(0),
        ok: false,
    };
    match link.sent().get(0) {
        Some((call, bytes)) => *call == sent && bytes == [1, 2].as_slice(),
        None => false,
    }
}

fn tells_the_reply(link: &MemLink) -> bool {
    match link.replied().get(0) {
        Some((ok, bytes)) => *ok && bytes == [3].as_slice(),
        None => false,
    }
}

#[test]
fn calls_are_lent_with_whether_they_succeeded(rt: HostRuntime) -> Result<(), Fail> {
    let alloc = rt.alloc();
    let peers = peers(alloc)?;
    let mut link = MemLink::new(alloc, Items::new(alloc), listed(alloc, &[2u32])?, 9)?;
    let right = [
        link.begin(Some(Ws(1)), Some(Ws(0)), &peers) == Ok(()),
        link.send(Ws(0), &[1, 2]) == Err(Failed),
        link.reply(&[3]) == Ok(()),
    ];
    link.raise(Ws(2));
    link.close(Ws(0));
    let told = [
        tells_the_begin(&link),
        tells_the_address(&link),
        tells_the_send(&link),
        tells_the_reply(&link),
        link.asked() == [Ask::Raise(Ws(2)), Ask::Close(Ws(0))].as_slice(),
    ];
    assert_eq!(rt; first_wrong(&right), None);
    assert_eq!(rt; first_wrong(&told), None);
    Ok(())
}

#[test]
fn a_call_past_the_room_fails_and_is_not_told(rt: HostRuntime) -> Result<(), Fail> {
    let alloc = rt.alloc();
    let peers = peers(alloc)?;
    let mut link = MemLink::new(alloc, Items::new(alloc), Items::new(alloc), 2)?;
    let right = [
        link.send(Ws(0), &[1, 2, 3]) == Err(Failed),
        link.begin(None, None, &peers) == Err(Failed),
        link.sent().len() == 0,
        !link.sent().is_whole(),
        link.begun().len() == 0,
    ];
    assert_eq!(rt; first_wrong(&right), None);
    Ok(())
}
