//! Audits of entries of which the last may be one that no bytes spell.
use crate::asked::Asked;
use crate::entries::entries;
use crate::nights::Night;
use crate::outs::Out;
use base_types::{Body, Entries, Entry, Feed, Items, Seen, Ws};
use event_audit::audit;

/// The numbers of a question as workstations, each with a count of its events.
fn counts(out: &mut Out, asked: &Asked) -> Seen {
    let mut seen = Seen::new(out.alloc);
    for pair in asked.numbers.chunks(2) {
        if let [w, count] = pair {
            let w = u16::try_from(*w).unwrap_or(u16::MAX);
            let count = u32::try_from(*count).unwrap_or(u32::MAX);
            let done = seen.push((Ws(w), count));
            out.done(done);
        }
    }
    seen
}

/// Puts counts in the place of those that an entry stands on.
fn put_counts(body: &mut Body, counts: Seen) {
    match body {
        Body::Launched(_, _, seen) => *seen = counts,
        Body::StreamEnded(_, seen) => *seen = counts,
        _ => {}
    }
}

/// Makes an entry the one that is asked for: `audit-events W PLACE` and `audit-orders A W PLACE` put it to a place of a
/// feed, and `audit-seen W COUNT ..` has it stand on these counts.
fn make_asked(out: &mut Out, entry: &mut Entry, asked: &Asked) {
    match asked.word {
        "audit-events" => {
            entry.feed = Feed::Events(asked.ws(0));
            entry.place = asked.count(1);
        }
        "audit-orders" => {
            entry.feed = Feed::Orders(asked.ws(0), asked.ws(1));
            entry.place = asked.count(2);
        }
        "audit-seen" => {
            let counts = counts(out, asked);
            put_counts(&mut entry.body, counts)
        }
        _ => {}
    }
}

fn put_found(night: &Night, out: &mut Out, list: &Entries) {
    if list.len() > 1000 {
        return out.word("too many");
    }
    let nobody = Items::new(out.alloc);
    let found = audit(out.alloc, &night.net, list, &nobody);
    if let Some(found) = out.kept(found) {
        out.debug("", &found)
    }
}

fn put_audit(night: &Night, out: &mut Out, asked: &Asked, mut list: Entries) {
    let last = list.len().saturating_sub(1);
    if let Some(entry) = list.get_mut(last) {
        make_asked(out, entry, asked);
    }
    put_found(night, out, &list)
}

/// Writes what an audit finds of the entries that the question brings, and tells whether one is asked for.
pub fn ask_audit(night: &Night, out: &mut Out, asked: &Asked) -> bool {
    match asked.word {
        "audit" | "audit-events" | "audit-orders" | "audit-seen" => {}
        _ => return false,
    }
    match entries(out, asked.text) {
        Some(list) => {
            put_audit(night, out, asked, list);
            true
        }
        None => false,
    }
}
