//! What a node is given.
use crate::asked::{Asked, add_numbers};
use crate::entries::{command, drafts, entry};
use crate::outs::Out;
use base_types::{Cmd, Dep, Feed, Input, Items, JobNo, Local, Moment, Obj, Text};
use syntax::first_word;

fn of_links(asked: &Asked) -> Option<Local> {
    if asked.is("turn", 1) {
        Some(Local::Turn(Moment(asked.number(0))))
    } else if asked.is("link", 1) {
        Some(Local::Linked(asked.ws(0)))
    } else if asked.is("unlink", 1) {
        Some(Local::Unlinked(asked.ws(0)))
    } else {
        None
    }
}

fn of_jobs(asked: &Asked) -> Option<Local> {
    let j = asked.job(0);
    if asked.is("started", 1) {
        Some(Local::Started(j))
    } else if asked.is("failed", 1) {
        Some(Local::StartFailed(j))
    } else if asked.is("ended", 2) {
        let code = i32::try_from(asked.number(1)).unwrap_or(-1);
        Some(Local::Ended(j, code))
    } else if asked.is("fulfil", 3) {
        Some(Local::Fulfil(asked.object(0), asked.small(2)))
    } else {
        None
    }
}

/// A path of so many times 64 bytes.
fn path(out: &mut Out, pieces: u32) -> Text {
    let mut path = String::new(out.alloc);
    for _ in 0..pieces {
        let done = path.push_str(
            "aaaaaaaaaaaaaaaaaaaaaaaaaaaaaaaaaaaaaaaaaaaaaaaaaaaaaaaaaaaaaaaa",
        );
        out.note(done);
    }
    Text::from_string(path)
}

/// A command to wait for a file of such a path.
fn typed_long(out: &mut Out, asked: &Asked) -> Local {
    let waits = Dep::Outside(path(out, asked.count(1)));
    let cmd = Cmd::AddDep(Obj::Job(JobNo(1)), waits);
    Local::Typed(asked.ws(0), cmd)
}

/// What happens at a node by itself. None where the words have no form.
pub fn local(out: &mut Out, asked: &Asked) -> Option<Local> {
    if asked.is_with_text("next", 0) {
        match drafts(out, asked.text) {
            Some(drafts) => Some(Local::Next(drafts)),
            None => None,
        }
    } else if asked.is_with_text("typed", 1) {
        match command(out, asked.text) {
            Some(cmd) => Some(Local::Typed(asked.ws(0), cmd)),
            None => None,
        }
    } else if asked.is("typed-long", 2) {
        Some(typed_long(out, asked))
    } else {
        match of_links(asked) {
            Some(local) => Some(local),
            None => of_jobs(asked),
        }
    }
}

/// What a node is given. None where the words have no form.
pub fn input(out: &mut Out, asked: &Asked) -> Option<Input> {
    let from = asked.ws(0);
    if asked.is_with_text("mail", 1) {
        match entry(out, asked.text) {
            Some(entry) => Some(Input::Mail(from, entry)),
            None => None,
        }
    } else if asked.is("ack", 3) {
        let feed = Feed::Events(asked.ws(1));
        Some(Input::Ack(from, feed, asked.count(2)))
    } else if asked.is("ack-orders", 4) {
        let feed = Feed::Orders(asked.ws(1), asked.ws(2));
        Some(Input::Ack(from, feed, asked.count(3)))
    } else {
        match local(out, asked) {
            Some(local) => Some(Input::Local(local)),
            None => None,
        }
    }
}

/// What a node is given by a line of its own.
pub fn input_of(out: &mut Out, line: &str) -> Option<Input> {
    let (word, rest) = first_word(line);
    let mut numbers = Items::new(out.alloc);
    let text = add_numbers(out, &mut numbers, rest);
    let asked = Asked {
        word,
        numbers: numbers.as_slice(),
        text,
    };
    input(out, &asked)
}

/// What happens at a node by a line of its own.
pub fn local_of(out: &mut Out, line: &str) -> Option<Local> {
    let (word, rest) = first_word(line);
    let mut numbers = Items::new(out.alloc);
    let text = add_numbers(out, &mut numbers, rest);
    let asked = Asked {
        word,
        numbers: numbers.as_slice(),
        text,
    };
    local(out, &asked)
}
