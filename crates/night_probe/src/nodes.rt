//! One node: how it is made, its steps, and what it tells.
use crate::asked::Asked;
use crate::entries::entries;
use crate::locals::input_of;
use crate::nights::Night;
use crate::outs::Out;
use crate::texts::{put_entry, put_nodes, put_printed};
use agent_core::{Agent, Step};
use base_types::{Copied, Entries, Feed, Input, Moment, Net, Out as Given, Packet, Work, Ws};
use batchman_core::turn_choice;
use dependencies::Scan;
use network_tree::Network;
use report_text::name;

/// Makes the node of a workstation, or says why not.
fn make(night: &mut Night, out: &mut Out, net: Network, me: Ws, kept: &Entries) {
    match Agent::restore(out.alloc, net, me, kept) {
        Ok(agent) => {
            night.agent = Some(agent);
            out.word("restored")
        }
        Err(fault) => out.debug("", &fault),
    }
}

fn make_over(night: &mut Night, out: &mut Out, me: Ws, kept: &Entries) {
    if let Some(net) = out.kept(night.net.copy()) {
        make(night, out, net, me, kept)
    }
}

fn make_of(night: &mut Night, out: &mut Out, asked: &Asked) -> bool {
    match entries(out, asked.text) {
        Some(kept) => {
            make_over(night, out, asked.ws(0), &kept);
            true
        }
        None => false,
    }
}

fn put_feed(out: &mut Out, net: &Net, feed: &Feed) {
    match feed {
        Feed::Events(w) => out.word(name(net, w)),
        Feed::Orders(a, w) => out.two("", &name(net, a), ">", &name(net, w)),
    }
}

fn put_packet(out: &mut Out, net: &Net, packet: &Packet) {
    let (word, feed, number) = match packet {
        Packet::Mail(feed, place) => (" mail ", feed, *place),
        Packet::Ack(feed, count) => (" ack ", feed, *count),
    };
    out.word(word);
    put_feed(out, net, feed);
    out.show(" ", &number)
}

fn put_launch(out: &mut Out, job: u32, number: u32, work: &Work) {
    out.two("; launch ", &job, " ", &number);
    match work {
        Work::Command(text) => out.debug(" do ", text),
        Work::Script(text) => out.debug(" script ", text),
    }
}

fn put_given(out: &mut Out, net: &Net, given: &Given) {
    match given {
        Given::Launch(j, number, work) => put_launch(out, j.0, *number, work),
        Given::Kill(j, number) => out.two("; kill ", &j.0, " ", number),
        Given::Send(to, packet) => {
            out.show("; ", &name(net, to));
            put_packet(out, net, packet)
        }
    }
}

fn put_step(out: &mut Out, net: &Net, step: &Step) {
    match &step.kept {
        Some(entry) => put_entry(out, net, entry),
        None => out.word("nothing"),
    }
    for given in step.outs.as_slice() {
        put_given(out, net, given);
    }
}

fn step(night: &mut Night, out: &mut Out, input: &Input) -> bool {
    let Some(agent) = &mut night.agent else {
        return false;
    };
    match agent.step(input) {
        Ok(step) => put_step(out, night.net.net(), &step),
        Err(fault) => out.debug("refused ", &fault),
    }
    true
}

fn step_of(night: &mut Night, out: &mut Out, text: &str) -> bool {
    match input_of(out, text) {
        Some(input) => step(night, out, &input),
        None => false,
    }
}

fn restart(night: &mut Night, out: &mut Out) -> bool {
    let Some(agent) = &mut night.agent else {
        return false;
    };
    agent.restart();
    out.word("restarted");
    true
}

/// Makes, moves or stops the node that is asked for, and tells whether one is.
pub fn ask_deeds(night: &mut Night, out: &mut Out, asked: &Asked) -> bool {
    if asked.is_with_text("node", 1) {
        make_of(night, out, asked)
    } else if asked.is_with_text("step", 0) {
        step_of(night, out, asked.text)
    } else if asked.is("restart", 0) {
        restart(night, out)
    } else {
        false
    }
}

fn put_choice(agent: &Agent, out: &mut Out, t: u64) {
    let choice = turn_choice(
        agent.net(),
        agent.owners(),
        &Scan,
        agent.me(),
        agent.live(),
        Moment(t),
    );
    out.debug("", &choice)
}

fn tell(agent: &Agent, out: &mut Out, asked: &Asked) -> bool {
    if asked.is("choice", 1) {
        put_choice(agent, out, asked.number(0));
    } else if asked.is("node-present", 0) {
        put_nodes(out, agent.net().net());
    } else if asked.is("live", 0) {
        out.show("", &agent.live().len());
    } else if asked.is("holds", 1) {
        out.show("", &agent.holds(Feed::Events(asked.ws(0))));
    } else if asked.is("node-listing", 0) {
        put_printed(out, agent.listing());
    } else {
        return false;
    }
    true
}

/// Writes what is asked of the node, and tells whether something is.
pub fn ask_node(night: &Night, out: &mut Out, asked: &Asked) -> bool {
    match &night.agent {
        Some(agent) => tell(agent, out, asked),
        None => false,
    }
}
