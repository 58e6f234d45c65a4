//! Short answers.
use crate::outs::{Numbers, Out};
use base_types::{JobNo, Obj, StreamNo, Ws};
use owner_fold::Outcome;
use symphony_view::{JobState, StreamState};

/// A short answer.
#[derive(Clone, Copy)]
pub enum Told {
    None,
    Yes(bool),
    Number(u64),
    Code(i32),
    /// A dependency by its object and number.
    DepPlace(Obj, u16),
    Ended(Outcome),
    OfJob(JobState),
    OfStream(StreamState),
}

pub fn truth(holds: bool) -> Option<Told> {
    Some(Told::Yes(holds))
}

pub fn number(n: u32) -> Option<Told> {
    Some(Told::Number(u64::from(n)))
}

pub fn small(n: u16) -> Option<Told> {
    Some(Told::Number(u64::from(n)))
}

pub fn maybe_number(n: Option<u32>) -> Option<Told> {
    match n {
        Some(n) => number(n),
        None => Some(Told::None),
    }
}

pub fn maybe_small(n: Option<u16>) -> Option<Told> {
    match n {
        Some(n) => small(n),
        None => Some(Told::None),
    }
}

pub fn maybe_ws(w: Option<Ws>) -> Option<Told> {
    match w {
        Some(w) => small(w.0),
        None => Some(Told::None),
    }
}

pub fn maybe_stream(s: Option<StreamNo>) -> Option<Told> {
    match s {
        Some(s) => number(s.0),
        None => Some(Told::None),
    }
}

pub fn maybe_truth(holds: Option<bool>) -> Option<Told> {
    match holds {
        Some(holds) => truth(holds),
        None => Some(Told::None),
    }
}

pub fn maybe_dep_place(place: &Option<(Obj, u16)>) -> Option<Told> {
    match place {
        Some((object, i)) => Some(Told::DepPlace(*object, *i)),
        None => Some(Told::None),
    }
}

/// The number of a job, 0 for none.
pub fn job_number(j: Option<JobNo>) -> u32 {
    match j {
        Some(j) => j.0,
        None => 0,
    }
}

fn put_state(out: &mut Out, told: &Told) {
    match told {
        Told::Ended(outcome) => out.debug("", outcome),
        Told::OfJob(state) => out.debug("", state),
        Told::OfStream(state) => out.debug("", state),
        _ => out.word("none"),
    }
}

/// Writes a short answer.
pub fn put_told(out: &mut Out, told: &Told) {
    match told {
        Told::Yes(holds) => out.word(if *holds { "yes" } else { "no" }),
        Told::Number(n) => out.show("", n),
        Told::Code(code) => out.show("", code),
        Told::DepPlace(Obj::Job(j), i) => out.two("job ", &j.0, " dep ", i),
        Told::DepPlace(Obj::Stream(s), i) => out.two("stream ", &s.0, " dep ", i),
        _ => put_state(out, told),
    }
}

/// Writes numbers with a space before each, and a dash where there is none.
pub fn put_numbers(out: &mut Out, numbers: &Numbers) {
    if numbers.as_slice().is_empty() {
        out.word(" -");
    }
    for n in numbers.as_slice() {
        out.show(" ", n);
    }
    if !numbers.is_whole() {
        out.no_memory();
    }
}
