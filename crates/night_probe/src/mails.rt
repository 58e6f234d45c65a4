//! What a node keeps of its neighbours, and what it sends.
use crate::asked::Asked;
use crate::nights::Night;
use crate::outs::Out;
use base_types::{Feed, Growing, NoMemory};

fn put_place(out: &mut Out, feed: &Feed, place: u32) {
    match feed {
        Feed::Events(w) => out.two("", &w.0, " ", &place),
        Feed::Orders(a, w) => {
            out.two("", &a.0, " ", &w.0);
            out.show(" ", &place)
        }
    }
}

fn put_send(night: &Night, out: &mut Out, asked: &Asked) -> bool {
    let (me, to) = (asked.ws(0), asked.ws(1));
    let count = night.net.count();
    if me.0 >= count || to.0 >= count {
        return false;
    }
    let place = u8::try_from(asked.number(2)).unwrap_or(u8::MAX);
    match &night.mail.to_send(&night.net, &night.owners, me, to, place) {
        Some(found) => put_place(out, &found.0, found.1),
        None => out.word("none"),
    }
    true
}

fn put_sends(night: &Night, out: &mut Out, asked: &Asked) -> bool {
    let (me, to) = (asked.ws(0), asked.ws(1));
    let count = night.net.count();
    if me.0 >= count || to.0 >= count {
        return false;
    }
    let mut sends = Growing::new(out.alloc);
    match sends.reserve(8) {
        Ok(()) => night
            .mail
            .put_sends(&night.net, &night.owners, me, to, &mut sends),
        Err(NoMemory) => out.no_memory(),
    }
    out.show("", &sends.len());
    true
}

/// Writes what is asked of the neighbours, and tells whether something is.
pub fn ask_mail(night: &Night, out: &mut Out, asked: &Asked) -> bool {
    if asked.is("to-send", 3) {
        put_send(night, out, asked)
    } else if asked.is("sends", 2) {
        put_sends(night, out, asked)
    } else if asked.is("acknowledged", 2) {
        let feed = Feed::Events(asked.ws(1));
        out.show("", &night.mail.acked_count(asked.ws(0), &feed));
        true
    } else if asked.is("is-up", 1) {
        let is_up = night.mail.is_up(asked.ws(0));
        out.word(if is_up { "yes" } else { "no" });
        true
    } else {
        false
    }
}

/// Does with the links what is asked, says so, and tells whether something is.
pub fn do_mail(night: &mut Night, out: &mut Out, asked: &Asked) -> bool {
    if asked.is("link", 1) {
        let done = night.mail.link(asked.ws(0));
        out.done(done);
    } else if asked.is("unlink", 1) {
        night.mail.unlink(asked.ws(0));
    } else if asked.is("acknowledge", 3) {
        let feed = Feed::Events(asked.ws(1));
        let done = night
            .mail
            .acked(&night.owners, asked.ws(0), &feed, asked.count(2));
        out.done(done);
    } else if asked.is("forget", 0) {
        night.mail.clear();
    } else {
        return false;
    }
    out.word("done");
    true
}
