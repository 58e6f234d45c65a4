//! Commands: what lines give, what is said to them, and what comes of them.
use crate::asked::Asked;
use crate::entries::{command, drafts, entry};
use crate::nights::Night;
use crate::outs::Out;
use crate::texts::{put_command, put_draft};
use base_types::{Cmd, Entry, Feed, Net, Packet, Ws};
use carry_forward::numbered;
use conman_orders::{judge, resolve};
use conman_syntax::{Line, parse_command};
use entry_checks::{are_drafts_inside, entry_size, is_entry_inside};
use mailman_core::{accepts, acknowledgement};
use recovery_watch::advice;
use report_text::name;

/// Writes the command of a line with the workstation that it goes to.
fn put_order(out: &mut Out, net: &Net, to: Ws, cmd: &Cmd) {
    out.two("", &name(net, &to), "", &" ");
    put_command(out, net, cmd);
    match cmd {
        Cmd::Submit(draft) => put_draft(out, net, draft),
        _ => {}
    }
}

/// Writes what a line gives that is typed at a workstation.
fn put_given(night: &Night, out: &mut Out, w: Ws, line: &Line) {
    match resolve(out.alloc, &night.net, night.held(), w, line) {
        Ok((to, cmd)) => put_order(out, night.net.net(), to, &cmd),
        Err(fault) => out.debug("", &fault),
    }
}

fn put_typed(night: &Night, out: &mut Out, asked: &Asked) {
    match parse_command(out.alloc, asked.text) {
        Ok(line) => put_given(night, out, asked.ws(0), &line),
        Err(_) => out.word("no line"),
    }
}

fn put_verdict(night: &Night, out: &mut Out, asked: &Asked) -> bool {
    match command(out, asked.text) {
        Some(cmd) => {
            let verdict = judge(&night.net, night.held(), asked.ws(0), &cmd);
            out.debug("", &verdict);
            true
        }
        None => false,
    }
}

fn put_submit(night: &Night, out: &mut Out, cmd: &Cmd) -> bool {
    match cmd {
        Cmd::Submit(draft) => {
            match numbered(out.alloc, night.held(), draft) {
                Ok(doc) => out.show("", &doc.no.0),
                Err(fault) => out.debug("", &fault),
            }
            true
        }
        _ => false,
    }
}

fn put_submitted(night: &Night, out: &mut Out, asked: &Asked) -> bool {
    match command(out, asked.text) {
        Some(cmd) => put_submit(night, out, &cmd),
        None => false,
    }
}

fn put_advice(night: &Night, out: &mut Out, asked: &Asked) {
    match advice(&night.net, night.held(), asked.ws(0)) {
        Some(cmd) => put_command(out, night.net.net(), &cmd),
        None => out.word("none"),
    }
}

/// Writes which command is asked for, what is said to it or what comes of it, and tells whether one is asked for.
pub fn ask_orders(night: &Night, out: &mut Out, asked: &Asked) -> bool {
    if asked.is_with_text("judge", 1) {
        return put_verdict(night, out, asked);
    }
    if asked.is_with_text("submit", 0) {
        return put_submitted(night, out, asked);
    }
    if asked.is_with_text("type", 1) {
        put_typed(night, out, asked);
    } else if asked.is("advice", 1) {
        put_advice(night, out, asked);
    } else {
        return false;
    }
    true
}

fn put_acknowledged(night: &Night, out: &mut Out, entry: &Entry) {
    let packet = acknowledgement(&night.owners, entry);
    match &packet {
        Packet::Ack(Feed::Events(w), count) => out.two("", &w.0, " ", count),
        _ => out.word("none"),
    }
}

fn truth(holds: bool) -> &'static str {
    if holds { "yes" } else { "no" }
}

fn put_of_entry(night: &Night, out: &mut Out, asked: &Asked, entry: &Entry) -> bool {
    if asked.is_with_text("is-inside", 1) {
        out.word(truth(is_entry_inside(asked.small(0), entry)));
    } else if asked.is_with_text("size", 0) {
        match entry_size(entry) {
            Some(size) => out.show("", &size),
            None => out.word("none"),
        }
    } else if asked.is_with_text("accepts", 1) {
        out.word(truth(accepts(&night.owners, asked.ws(0), entry)));
    } else if asked.is_with_text("acknowledges", 0) {
        put_acknowledged(night, out, entry);
    } else {
        return false;
    }
    true
}

fn put_drafts_inside(out: &mut Out, asked: &Asked) -> bool {
    match drafts(out, asked.text) {
        Some(drafts) => {
            out.word(truth(are_drafts_inside(asked.small(0), &drafts)));
            true
        }
        None => false,
    }
}

/// Writes what is asked of an entry that the question brings, and tells whether something is.
pub fn ask_entry(night: &Night, out: &mut Out, asked: &Asked) -> bool {
    if asked.is_with_text("are-drafts-inside", 1) {
        return put_drafts_inside(out, asked);
    }
    match entry(out, asked.text) {
        Some(entry) => put_of_entry(night, out, asked, &entry),
        None => false,
    }
}
