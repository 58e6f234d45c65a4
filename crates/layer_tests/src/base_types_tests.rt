//! Each public function of `base_types` on its happy path, and copies. Those of entries are told by the cases
//! `text_entries_*`.
use base_types::{
    Carry, Copied, Feed, Growing, Items, JobNo, Local, Moment, NoMemory, Node, Obj, Out, Packet,
    Peer, PromptDef, Resource, Seen, StreamDraft, Text, WorldStep, Ws, is_name,
};
use std::alloc::Global;
use std::test::Fail;
use test_builders::{DraftWaits, NodeRow, StreamDraftRow, Waits, drafts, first_wrong, net, one};

const DRAFT: StreamDraftRow = (
    0,
    "NIGHT",
    false,
    &[DraftWaits::Stream(1, "DAY")],
    &[(
        1,
        "A",
        &[
            DraftWaits::Job(1, "DAY", "B"),
            DraftWaits::Plain(Waits::At(3)),
        ],
    )],
);

fn equals_its_copy(text: &Text) -> bool {
    match text.copy() {
        Ok(copy) => copy == *text,
        Err(_) => false,
    }
}

fn is_behind_the_empty(alloc: Global, text: &Text) -> bool {
    let empty = Text::new(alloc);
    empty.is_empty() && empty < *text
}

fn is_in_upper_case(alloc: Global, text: &str, upper: &str) -> bool {
    match Text::of_upper(alloc, text) {
        Ok(text) => text.as_str() == upper,
        Err(_) => false,
    }
}

/// Whether a text that is made of the string with the text and a number is this one.
fn is_made_of_a_string(alloc: Global, text: &Text, made: &str) -> bool {
    match format!(in alloc; "{text}#1") {
        Ok(string) => Text::from_string(string).as_str() == made,
        Err(_) => false,
    }
}

#[test]
fn texts(rt: HostRuntime) -> Result<(), Fail> {
    let alloc = rt.alloc();
    let text = Text::of(alloc, "Zoë")?;
    let right = [
        text.as_str() == "Zoë",
        text.len() == 4,
        equals_its_copy(&text),
        is_behind_the_empty(alloc, &text),
        is_in_upper_case(alloc, "Zoë-1a", "ZOë-1A"),
        is_made_of_a_string(alloc, &text, "Zoë#1"),
    ];
    assert_eq!(rt; first_wrong(&right), None);
    Ok(())
}

#[test]
fn names(rt: HostRuntime) {
    let right = [
        is_name("A-1_b"),
        !is_name(""),
        !is_name("1A"),
        !is_name("Zoë"),
        is_name("abcdefghijabcdefghijabcdefghijabcdefghij"),
        !is_name("abcdefghijabcdefghijabcdefghijabcdefghijk"),
    ];
    assert_eq!(rt; first_wrong(&right), None);
}

/// The counts of a copy for the workstations 3 and 4.
fn copied_counts(seen: &Seen) -> Option<(u32, u32)> {
    match seen.copy() {
        Ok(copy) => Some((copy.count(Ws(3)), copy.count(Ws(4)))),
        Err(_) => None,
    }
}

#[test]
fn counts(rt: HostRuntime) -> Result<(), Fail> {
    let mut seen = Seen::new(rt.alloc());
    seen.reserve(1)?;
    seen.push((Ws(3), 8))?;
    let right = [
        seen.count(Ws(3)) == 8,
        seen.count(Ws(4)) == 0,
        seen.as_slice().len() == 1,
        copied_counts(&seen) == Some((8, 0)),
    ];
    assert_eq!(rt; first_wrong(&right), None);
    Ok(())
}

/// A list of the jobs 1 and 2, with room that was reserved first.
fn two_jobs(alloc: Global) -> Result<Growing<Obj>, NoMemory> {
    let mut list = Growing::new(alloc);
    list.reserve(2)?;
    list.push(Obj::Job(JobNo(1)))?;
    list.put(Obj::Job(JobNo(2)));
    Ok(list)
}

/// The list with the job 3 behind it, and the job 4 in its first place.
fn three_jobs(mut list: Items<Obj>) -> Result<Items<Obj>, NoMemory> {
    list.reserve(1)?;
    list.push(Obj::Job(JobNo(3)))?;
    list.set(0, Obj::Job(JobNo(4)));
    Ok(list)
}

#[test]
fn room(rt: HostRuntime) -> Result<(), Fail> {
    let list = three_jobs(two_jobs(rt.alloc())?.into_items())?;
    let right = [
        list.len() == 3,
        list.get(0) == Some(&Obj::Job(JobNo(4))),
        Growing::of_items(list).len() == 3,
    ];
    assert_eq!(rt; first_wrong(&right), None);
    Ok(())
}

fn is_night(draft: Option<&StreamDraft>) -> bool {
    match draft {
        Some(draft) => draft.name.as_str() == "NIGHT",
        None => false,
    }
}

/// Whether the step is the one of the test below, with its draft.
fn is_the_step(step: &WorldStep) -> bool {
    match step {
        WorldStep::CrashTake(Ws(2), Local::Next(drafts), true) => is_night(drafts.get(0)),
        _ => false,
    }
}

#[test]
fn copies_of_steps(rt: HostRuntime) -> Result<(), Fail> {
    let alloc = rt.alloc();
    let drafts = drafts(alloc, &[DRAFT])?;
    let step = WorldStep::CrashTake(Ws(2), Local::Next(drafts), true);
    let copy = step.copy()?;
    assert!(rt; is_the_step(&copy));
    Ok(())
}

#[test]
fn copies_of_peers(rt: HostRuntime) -> Result<(), Fail> {
    let peer = Peer {
        ws: Ws(1),
        host: Text::of(rt.alloc(), "mdm.example")?,
        port: 31111,
    };
    let copy = peer.copy()?;
    let right = [
        copy.ws.0 == 1,
        copy.host.as_str() == "mdm.example",
        copy.port == 31111,
    ];
    assert_eq!(rt; first_wrong(&right), None);
    Ok(())
}

/// Whether the outputs are the one of the test below.
fn are_the_outputs(outs: &[Out]) -> bool {
    match outs {
        [Out::Send(to, packet)] => {
            *to == Ws(1) && *packet == Packet::Ack(Feed::Events(Ws(0)), 3)
        }
        _ => false,
    }
}

#[test]
fn copies_of_outputs(rt: HostRuntime) -> Result<(), Fail> {
    let out = Out::Send(Ws(1), Packet::Ack(Feed::Events(Ws(0)), 3));
    let outs = one(rt.alloc(), out)?;
    let copies = outs.copy()?;
    assert!(rt; are_the_outputs(copies.as_slice()));
    Ok(())
}

static NODES: [NodeRow; 2] = [("M", None, true, true), ("P", Some(0), false, false)];

fn is_the_second(node: Option<&Node>) -> bool {
    match node {
        Some(node) => {
            node.name.as_str() == "P" && node.hop == Some(Ws(0)) && !node.manager && !node.full
        }
        None => false,
    }
}

fn is_the_tape(resource: Option<&Resource>) -> bool {
    match resource {
        Some(resource) => resource.total == 2 && resource.ws.0 == 1,
        None => false,
    }
}

fn is_the_prompt(prompt: Option<&PromptDef>) -> bool {
    match prompt {
        Some(prompt) => prompt.text.as_str() == "go on?",
        None => false,
    }
}

#[test]
fn copies_of_networks(rt: HostRuntime) -> Result<(), Fail> {
    let net = net(rt.alloc(), &NODES, &[(1, "TAPE", 2)], &[("GO", "go on?")])?;
    let copy = net.copy()?;
    let right = [
        is_the_second(copy.nodes.get(1)),
        is_the_tape(copy.resources.get(0)),
        is_the_prompt(copy.prompts.get(0)),
        copy.carry == Carry::Yes,
    ];
    assert_eq!(rt; first_wrong(&right), None);
    Ok(())
}

#[test]
fn feeds_and_moments_in_order(rt: HostRuntime) {
    let events = Feed::Events(Ws(2));
    let first = Feed::Orders(Ws(0), Ws(1));
    let second = Feed::Orders(Ws(0), Ws(2));
    let right = [events < first, first < second, Moment(9) < Moment(10)];
    assert_eq!(rt; first_wrong(&right), None);
}
