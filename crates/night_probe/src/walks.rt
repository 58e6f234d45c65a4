//! Lists of what a node took, by numbers.
use crate::asked::Asked;
use crate::outs::{Numbers, Out};
use crate::told::put_numbers;
use base_types::{StreamNo, Ws};
use owner_fold::Owners;

fn add_jobs_of(o: &Owners, s: StreamNo, found: &mut Numbers) {
    for (_, doc) in o.jobs_of_stream(s) {
        found.add(doc.no.0);
    }
}

fn add_of_plan(o: &Owners, asked: &Asked, found: &mut Numbers) -> bool {
    if asked.is("members", 0) {
        for s in o.members().as_slice() {
            found.add(s.0);
        }
    } else if asked.is("streams", 0) {
        for doc in o.streams() {
            found.add(doc.no.0);
        }
    } else if asked.is("jobs", 0) {
        for (_, doc) in o.jobs() {
            found.add(doc.no.0);
        }
    } else if asked.is("jobs-of", 1) {
        add_jobs_of(o, asked.stream(0), found);
    } else {
        return false;
    }
    true
}

fn add_filed(o: &Owners, w: Ws, asked: &Asked, found: &mut Numbers) -> bool {
    if asked.is("filed-streams", 1) {
        for doc in o.filed_streams(w) {
            found.add(doc.no.0);
        }
    } else if asked.is("filed-jobs", 1) {
        for (_, doc) in o.filed_jobs(w) {
            found.add(doc.no.0);
        }
    } else {
        return false;
    }
    true
}

fn add_of_station(o: &Owners, w: Ws, asked: &Asked, found: &mut Numbers) -> bool {
    if asked.is("open", 1) {
        for (_, doc) in o.open_launches(w) {
            found.add(doc.no.0);
        }
    } else if asked.is("waiting", 1) {
        for doc in o.streams_waiting(w) {
            found.add(doc.no.0);
        }
    } else if asked.is("under-way", 1) {
        for doc in o.streams_under_way(w) {
            found.add(doc.no.0);
        }
    } else if asked.is("timed-streams", 1) {
        for doc in o.timed_streams(w) {
            found.add(doc.no.0);
        }
    } else if asked.is("timed-jobs", 1) {
        for (_, doc) in o.timed_jobs(w) {
            found.add(doc.no.0);
        }
    } else {
        return false;
    }
    true
}

/// Adds what a list has that is asked for, and tells whether one is.
fn add_asked(o: &Owners, asked: &Asked, found: &mut Numbers) -> bool {
    let w = asked.ws(0);
    add_of_plan(o, asked, found)
        || add_of_station(o, w, asked, found)
        || add_filed(o, w, asked, found)
}

/// Writes a list that is asked for, and tells whether one is.
fn put_list(out: &mut Out, o: &Owners, asked: &Asked) -> bool {
    let mut found = Numbers::new(out.alloc);
    let is_list = add_asked(o, asked, &mut found);
    if is_list {
        out.word(asked.word);
        put_numbers(out, &found);
    }
    is_list
}

static SETS: [&str; 5] = [
    "waiting",
    "under-way",
    "open",
    "timed-streams",
    "timed-jobs",
];

/// Writes all lists of a workstation.
fn put_sets(out: &mut Out, o: &Owners, asked: &Asked) {
    out.word("sets");
    for word in &SETS {
        out.word("; ");
        let set = Asked {
            word: *word,
            numbers: asked.numbers,
            text: asked.text,
        };
        put_list(out, o, &set);
    }
}

fn put_jobs_of(out: &mut Out, o: &Owners, s: StreamNo) {
    let mut found = Numbers::new(out.alloc);
    add_jobs_of(o, s, &mut found);
    out.word(";");
    put_numbers(out, &found)
}

/// Writes the jobs of each stream below a number.
fn put_each(out: &mut Out, o: &Owners, count: u32) {
    out.word("jobs");
    for number in 0..count {
        put_jobs_of(out, o, StreamNo(number));
    }
}

/// Writes the lists that are asked for, and tells whether there are any.
pub fn ask_lists(out: &mut Out, o: &Owners, asked: &Asked) -> bool {
    if asked.is("sets", 1) {
        put_sets(out, o, asked);
        true
    } else if asked.is("jobs-of-each", 1) {
        put_each(out, o, asked.count(0));
        true
    } else {
        put_list(out, o, asked)
    }
}
