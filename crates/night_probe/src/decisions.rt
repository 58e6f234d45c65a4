//! What a workstation may do.
use crate::asked::Asked;
use crate::nights::Night;
use crate::outs::Out;
use crate::told::{Told, job_number, maybe_dep_place, truth};
use base_types::{Feed, Ws};
use dependencies::{Readiness, Scan, late_due, may_end, may_release, ready, sat, until_due};
use file_watch::next_probe;
use mailman_routes::forwards;
use network_tree::Network;
use owner_fold::Owners;
use ready_index::Index;

fn of_waits(net: &Network, o: &Owners, asked: &Asked) -> Option<Told> {
    if asked.is("is-satisfied", 3) {
        truth(sat(net, o, asked.object(0), asked.small(2)))
    } else if asked.is("is-ready", 2) {
        truth(ready(net, o, asked.ws(0), asked.job(1)))
    } else if asked.is("may-release", 2) {
        truth(may_release(net, o, asked.ws(0), asked.stream(1)))
    } else if asked.is("may-end", 2) {
        truth(may_end(net, o, asked.ws(0), asked.stream(1)))
    } else {
        None
    }
}

fn of_times(net: &Network, o: &Owners, asked: &Asked) -> Option<Told> {
    let w = asked.ws(0);
    if asked.is("until-due", 1) {
        maybe_dep_place(&until_due(net, o, w))
    } else if asked.is("late-due", 1) {
        maybe_dep_place(&late_due(net, o, w))
    } else if asked.is("probe", 1) {
        maybe_dep_place(&next_probe(net, o, w, None))
    } else if asked.is("probe", 4) {
        let last = Some((asked.object(1), asked.small(3)));
        maybe_dep_place(&next_probe(net, o, w, last))
    } else {
        None
    }
}

/// Whether a workstation passes events on.
fn of_events(net: &Network, o: &Owners, asked: &Asked) -> Option<Told> {
    let count = net.count();
    let (from, to, of) = (asked.ws(0), asked.ws(1), asked.ws(2));
    if from.0 >= count || to.0 >= count || of.0 >= count {
        return None;
    }
    let feed = Feed::Events(of);
    truth(forwards(net, o, from, to, &feed))
}

/// Whether a workstation passes orders on.
fn of_orders(net: &Network, o: &Owners, asked: &Asked) -> Option<Told> {
    let count = net.count();
    let (from, to, by, of) = (asked.ws(0), asked.ws(1), asked.ws(2), asked.ws(3));
    if from.0 >= count || to.0 >= count || by.0 >= count || of.0 >= count {
        return None;
    }
    let feed = Feed::Orders(by, of);
    truth(forwards(net, o, from, to, &feed))
}

fn of_ways(net: &Network, o: &Owners, asked: &Asked) -> Option<Told> {
    if asked.is("passes", 3) {
        of_events(net, o, asked)
    } else if asked.is("passes-orders", 4) {
        of_orders(net, o, asked)
    } else {
        None
    }
}

/// The decision that is asked for.
pub fn decision(net: &Network, o: &Owners, asked: &Asked) -> Option<Told> {
    if let Some(told) = of_waits(net, o, asked) {
        return Some(told);
    }
    if let Some(told) = of_times(net, o, asked) {
        return Some(told);
    }
    of_ways(net, o, asked)
}

/// The number of the best job, 0 for none, by an index that took each entry. 0 also where the workstation is outside.
fn by_index(night: &Night, w: Ws) -> u32 {
    if w.0 >= night.net.count() {
        return 0;
    }
    match night.indices.get(usize::from(w.0)) {
        Some(index) => job_number(index.best(&night.net, &night.owners, w)),
        None => 0,
    }
}

/// By a walk over all jobs.
fn by_walk(night: &Night, w: Ws) -> u32 {
    if w.0 >= night.net.count() {
        return 0;
    }
    job_number(Scan.best(&night.net, &night.owners, w))
}

/// By an index that is made anew.
fn by_index_anew(night: &Night, out: &mut Out, w: Ws) -> u32 {
    if w.0 >= night.net.count() {
        return 0;
    }
    let index = Index::of(out.alloc, &night.net, &night.owners, w);
    match out.kept(index) {
        Some(index) => job_number(index.best(&night.net, &night.owners, w)),
        None => 0,
    }
}

/// Writes the number of the best job where all three find the same.
fn put_best(night: &Night, out: &mut Out, w: Ws) {
    let walk = by_walk(night, w);
    let index = by_index(night, w);
    let anew = by_index_anew(night, out, w);
    if walk == index && walk == anew {
        out.show("", &walk)
    } else {
        out.word("they differ")
    }
}

/// Writes how often the index finds a job when it is asked so often.
fn put_often(night: &Night, out: &mut Out, asked: &Asked) {
    let mut found: u32 = 0;
    for _ in 0..asked.count(1) {
        if by_index(night, asked.ws(0)) == asked.count(2) {
            found = found.saturating_add(1);
        }
    }
    out.show("", &found)
}

/// Writes the best job that is asked for, and tells whether one is.
pub fn ask_best(night: &Night, out: &mut Out, asked: &Asked) -> bool {
    if asked.is("best", 1) {
        put_best(night, out, asked.ws(0));
    } else if asked.is("often", 3) {
        put_often(night, out, asked);
    } else {
        return false;
    }
    true
}
