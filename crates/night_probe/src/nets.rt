//! Networks, read and asked.
use crate::asked::Asked;
use crate::outs::Out;
use crate::told::{Told, maybe_ws, small, truth};
use base_types::{Carry, Items, Net, Node, PromptDef, Resource, Text, Ws};
use network_tree::Network;
use std::alloc::Global;
use syntax::{first_word, number_u32, words};

/// A network without any lines.
pub fn blank(alloc: Global) -> Net {
    Net {
        nodes: Items::new(alloc),
        resources: Items::new(alloc),
        prompts: Items::new(alloc),
        carry: Carry::Yes,
    }
}

fn number(word: &str) -> Option<u16> {
    match number_u32(word) {
        Some(n) => u16::try_from(n).ok(),
        None => None,
    }
}

fn hop(word: &str) -> Option<Ws> {
    match number(word) {
        Some(n) => Some(Ws(n)),
        None => None,
    }
}

/// A text of its own.
fn owned(out: &mut Out, text: &str) -> Text {
    let made = Text::of(out.alloc, text);
    match out.kept(made) {
        Some(text) => text,
        None => Text::new(out.alloc),
    }
}

fn add_node(out: &mut Out, net: &mut Net, words: &[&str]) -> bool {
    let [name, at, manager, full] = words else {
        return false;
    };
    let done = net.nodes.push(Node {
        name: owned(out, *name),
        hop: hop(*at),
        manager: *manager == "manager",
        full: *full == "full",
    });
    out.done(done);
    true
}

fn add_resource(out: &mut Out, net: &mut Net, words: &[&str]) -> bool {
    let [ws, name, total] = words else {
        return false;
    };
    let done = net.resources.push(Resource {
        ws: Ws(number(*ws).unwrap_or(u16::MAX)),
        name: owned(out, *name),
        total: number(*total).unwrap_or(u16::MAX),
    });
    out.done(done);
    true
}

/// Adds a workstation or a resource, and tells whether it has as many words as one.
fn add_named(out: &mut Out, net: &mut Net, word: &str, words: &[&str]) -> bool {
    if word == "ws" {
        add_node(out, net, words)
    } else {
        add_resource(out, net, words)
    }
}

fn add_words(out: &mut Out, net: &mut Net, word: &str, rest: &str) -> bool {
    let words = words(out.alloc, rest);
    match out.kept(words) {
        Some(words) => add_named(out, net, word, words.as_slice()),
        None => false,
    }
}

fn add_prompt(out: &mut Out, net: &mut Net, rest: &str) {
    let (name, text) = first_word(rest);
    let done = net.prompts.push(PromptDef {
        name: owned(out, name),
        text: owned(out, text),
    });
    out.done(done)
}

fn set_carry(net: &mut Net, word: &str) {
    net.carry = if word == "all" {
        Carry::All
    } else if word == "no" {
        Carry::No
    } else {
        Carry::Yes
    };
}

/// Adds what a line says to a network, and tells whether it is a line of one.
pub fn read_line(out: &mut Out, net: &mut Net, line: &str) -> bool {
    let (word, rest) = first_word(line);
    if word == "ws" || word == "res" {
        return add_words(out, net, word, rest);
    }
    if word == "prompt" {
        add_prompt(out, net, rest);
    } else if word == "carry" {
        set_carry(net, rest);
    } else {
        return false;
    }
    true
}

fn of_one(net: &Network, asked: &Asked) -> Option<Told> {
    let w = asked.ws(0);
    if asked.is("count", 0) {
        small(net.count())
    } else if asked.is("hop", 1) && w.0 < net.count() {
        maybe_ws(net.hop(w))
    } else {
        None
    }
}

fn of_two(net: &Network, asked: &Asked) -> Option<Told> {
    let (a, b) = (asked.ws(0), asked.ws(1));
    if a.0 >= net.count() || b.0 >= net.count() {
        return None;
    }
    if asked.is("towards", 2) {
        maybe_ws(net.towards(a, b))
    } else if asked.is("is-behind", 2) {
        truth(net.behind(a, b))
    } else if asked.is("are-neighbours", 2) {
        truth(net.neighbours(a, b))
    } else {
        None
    }
}

/// What of a network is asked for by numbers.
pub fn of_net(net: &Network, asked: &Asked) -> Option<Told> {
    if let Some(told) = of_one(net, asked) {
        return Some(told);
    }
    of_two(net, asked)
}
