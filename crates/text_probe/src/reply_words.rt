//! What a running node answers. Workstation n is called Wn.
use crate::arguments::{halves, station};
use crate::outs::Out;
use crate::report_words::net;
use base_types::{Net, NoMemory, Text};
use node_replies::{
    Refusal, Shows, kept, link_asked, planned, refused, shown, shutdown, unlink_asked,
};
use std::alloc::Global;
use syntax::first_word;

static REFUSALS: [Refusal; 15] = [
    Refusal::UnknownCommand,
    Refusal::BadArgument,
    Refusal::TooMany,
    Refusal::UnknownName,
    Refusal::Limit,
    Refusal::OutOfRange,
    Refusal::NotInNetwork,
    Refusal::NotNeighbour,
    Refusal::NotMaster,
    Refusal::NoProcess,
    Refusal::NoDep,
    Refusal::RunsSpent,
    Refusal::NumbersSpent,
    Refusal::PlanFull,
    Refusal::TooLong,
];

fn kind_of(word: &str) -> Shows {
    match word {
        "jobs" => Shows::Jobs,
        "schedules" => Shows::Schedules,
        "cpus" => Shows::Cpus,
        "prompts" => Shows::Prompts,
        _ => Shows::Resources,
    }
}

fn put_text(out: &mut Out, text: Result<Text, NoMemory>) {
    match text {
        Ok(text) => out.word(text.as_str()),
        Err(NoMemory) => out.unknown(),
    }
}

fn shown_of(alloc: Global, front: &str, listing: &str) -> Result<Text, NoMemory> {
    let (kind, pattern) = first_word(front);
    let pattern = Text::of(alloc, pattern)?;
    shown(alloc, kind_of(kind), Some(&pattern), listing)
}

/// `shown KIND PATTERN / LISTING`
pub fn put_shown(out: &mut Out, text: &str) {
    let (front, listing) = halves(text);
    let text = shown_of(out.alloc, front, listing);
    put_text(out, text)
}

/// `all_shown KIND / LISTING`
pub fn put_all_shown(out: &mut Out, text: &str) {
    let (kind, listing) = halves(text);
    let text = shown(out.alloc, kind_of(kind), None, listing);
    put_text(out, text)
}

fn refused_for(alloc: Global, number: u32) -> Result<Text, NoMemory> {
    match REFUSALS.get(number as usize) {
        Some(refusal) => refused(alloc, *refusal),
        None => Err(NoMemory),
    }
}

fn reply(alloc: Global, net: &Net, word: &str, numbers: &[u32]) -> Result<Text, NoMemory> {
    match numbers {
        [from, to, place] => kept(alloc, net, station(*from), station(*to), *place),
        [number] => match word {
            "link_asked" => link_asked(alloc, net, station(*number)),
            "unlink_asked" => unlink_asked(alloc, net, station(*number)),
            "planned" => planned(alloc, *number),
            _ => refused_for(alloc, *number),
        },
        _ => shutdown(alloc),
    }
}

fn put_reply(out: &mut Out, word: &str, numbers: &[u32]) {
    let net = net(out, 2);
    let text = reply(out.alloc, &net, word, numbers);
    put_text(out, text)
}

/// `kept FROM TO PLACE`, `link_asked WS`, `unlink_asked WS`, `planned RUN`, `shutdown`, and `refused N` with the place of
/// the reason, from 0.
pub fn tell(out: &mut Out, word: &str, numbers: &[u32]) {
    match word {
        "kept" | "link_asked" | "unlink_asked" | "planned" | "shutdown" | "refused" => {
            put_reply(out, word, numbers)
        }
        _ => out.unknown(),
    }
}
