//! What checked definitions give, and the days on which a stream runs.
use crate::arguments::{halves, numbers};
use crate::calendar_words::{put_free, put_set};
use crate::outs::Out;
use base_types::{NoMemory, Text};
use definition_texts::read_definition_text;
use run_cycles::{dates, runs_on};
use workload_defs::Workload;

/// The number of the workstation of a name, and the days of the calendar of that name.
fn put_name(out: &mut Out, w: &Workload, name: &Text) {
    out.show("", name);
    out.debug(" ", &w.station(name));
    out.debug(" ", &w.calendar_days(name));
    out.word(";")
}

/// What the names of workstations, calendars and prompts stand for.
fn put_names(out: &mut Out, w: &Workload) {
    for node in w.net().nodes.as_slice() {
        put_name(out, w, &node.name);
    }
    for calendar in w.defs().calendars.as_slice() {
        put_name(out, w, &calendar.item.name);
    }
    for prompt in w.net().prompts.as_slice() {
        put_name(out, w, &prompt.name);
    }
}

/// The hosts, the names, and the free days of each stream from 12/24/2003 to 12/28/2003.
fn put_workload(out: &mut Out, w: &Workload) {
    for peer in w.peers().as_slice() {
        out.two("peer ", &peer.ws.0, " ", &peer.host);
        out.two(" ", &peer.port, "", &";");
    }
    put_names(out, w);
    for stream in 0..w.streams() {
        put_free(out, w.free_days(stream), 12_410, 5);
        out.word(";");
    }
}

fn put_dates(out: &mut Out, w: &Workload, numbers: &[u32]) {
    match numbers {
        [from, to, first, count] => match dates(out.alloc, w, 0, *from, *to) {
            Ok(set) => put_set(out, &set, *first, *count),
            Err(NoMemory) => out.unknown(),
        },
        [stream, day] => out.show("", &runs_on(w, *stream, *day)),
        _ => put_workload(out, w),
    }
}

fn put_asked(out: &mut Out, numbers: &[u32], text: &str) {
    match read_definition_text(out.alloc, text) {
        Ok(w) => put_dates(out, &w, numbers),
        Err(_) => out.unknown(),
    }
}

/// `dates FROM TO FIRST COUNT / TEXT`: the days of the first stream within bounds, among others. `runs_on STREAM DAY / TEXT`:
/// whether a stream runs on a day. `workload / TEXT`: hosts, names and free days.
pub fn put_of_definitions(out: &mut Out, text: &str) {
    let (front, text) = halves(text);
    let numbers = numbers(out, front);
    put_asked(out, numbers.as_slice(), text)
}
