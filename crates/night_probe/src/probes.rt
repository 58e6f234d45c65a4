//! The lines of an input, one after the other.
use crate::asked::{Asked, add_numbers};
use crate::entries::entry;
use crate::nets::{blank, read_line};
use crate::nights::Night;
use crate::outs::Out;
use crate::questions::ask;
use base_types::{Copied, Items, Net};
use network_tree::Network;
use std::alloc::Global;
use syntax::first_word;

/// The network of the lines so far, and the night behind `$QUESTIONS`.
pub struct Probe {
    net: Net,
    night: Option<Night>,
}

impl Drop for Probe {
    fn drop(self) {
        let Probe {
            net: _net,
            night: _night,
        } = self;
    }
}

/// Takes the entry of a word, and tells whether it is one, and the next of its feed.
fn take(night: &mut Night, out: &mut Out, word: &str) -> bool {
    match entry(out, word) {
        Some(entry) => night.take(out, &entry),
        None => false,
    }
}

/// Answers a question with a line or more.
fn answer(night: &mut Night, out: &mut Out, word: &str, rest: &str) {
    let mut numbers = Items::new(out.alloc);
    let text = add_numbers(out, &mut numbers, rest);
    let asked = Asked {
        word,
        numbers: numbers.as_slice(),
        text,
    };
    if !ask(night, out, &asked) {
        out.word("no such question");
    }
    out.word("\n")
}

fn read_question(night: &mut Night, out: &mut Out, line: &str) {
    let (word, rest) = first_word(line);
    if word != "entry" {
        answer(night, out, word, rest)
    } else if !take(night, out, rest) {
        out.word("no such entry\n")
    }
}

impl Probe {
    pub fn new(alloc: Global) -> Probe {
        Probe {
            net: blank(alloc),
            night: None,
        }
    }

    /// Begins the night of a network, or says why there is none.
    fn begin(&mut self, out: &mut Out, net: Net) {
        match Network::new(out.alloc, net) {
            Ok(net) => self.night = Some(Night::begin(out, net)),
            Err(fault) => {
                out.debug("", &fault);
                out.word("\n")
            }
        }
    }

    /// Begins the night of the network of the lines so far.
    fn open(&mut self, out: &mut Out) {
        if let Some(net) = out.kept(self.net.copy()) {
            self.begin(out, net)
        }
    }

    fn read_net(&mut self, out: &mut Out, line: &str) {
        if line == "$QUESTIONS" {
            self.open(out)
        } else if !read_line(out, &mut self.net, line) {
            out.word("no such line\n")
        }
    }

    /// Reads a line, and writes what it is answered with.
    pub fn read(&mut self, out: &mut Out, line: &str) {
        if line.is_empty() {
            return;
        }
        if line == "$NIGHT" {
            self.net = blank(out.alloc);
            self.night = None;
            return;
        }
        if let Some(night) = &mut self.night {
            return read_question(night, out, line);
        }
        self.read_net(out, line)
    }
}
