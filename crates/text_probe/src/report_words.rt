//! The parts of reports beside their entries, summaries, the words of states, and samples. Workstation n is called Wn.
use crate::arguments::{feed, halves, numbers, put_made, station};
use crate::outs::Out;
use base_types::{
    Bytes, Carry, Counts, FeedCount, Items, JobNo, Net, NoMemory, Node, NodePart, PairCount,
    ReportParts, Start, Text,
};
use report_text::{job_word, print_report, print_summary, stream_word};
use sample_record::sample;
use std::alloc::{AllocError, Global};
use std::fmt::Write;
use syntax::number_u32;

fn name(alloc: Global, number: u32) -> Result<String, AllocError> {
    format!(in alloc; "W{number}")
}

fn node(alloc: Global, number: u32) -> Node {
    let name = match name(alloc, number) {
        Ok(name) => Text::from_string(name),
        Err(_) => Text::new(alloc),
    };
    Node {
        name,
        hop: None,
        manager: false,
        full: false,
    }
}

/// A network of so many workstations.
pub fn net(out: &mut Out, count: u32) -> Net {
    let mut nodes = Items::new(out.alloc);
    for number in 0..count {
        let done = nodes.push(node(out.alloc, number));
        out.done(done);
    }
    Net {
        nodes,
        resources: Items::new(out.alloc),
        prompts: Items::new(out.alloc),
        carry: Carry::Yes,
    }
}

/// The parts of a report in which nothing is told.
pub fn no_parts(alloc: Global) -> ReportParts {
    ReportParts {
        events: Items::new(alloc),
        starts: Items::new(alloc),
        packets: Items::new(alloc),
        nodes: Items::new(alloc),
    }
}

/// The report of these parts in a network of 300 workstations.
pub fn printed(out: &mut Out, parts: &ReportParts) -> Option<Bytes> {
    let net = net(out, 300);
    let made = print_report(out.alloc, &net, parts);
    out.kept(made)
}

pub fn put_report(out: &mut Out, parts: &ReportParts) {
    let made = printed(out, parts);
    put_made(out, made)
}

/// `starts W J N W J N ..`: a report of launches.
pub fn put_starts(out: &mut Out, numbers: &[u32]) {
    let mut parts = no_parts(out.alloc);
    for row in numbers.chunks(3) {
        if let [ws, job, number] = row {
            let done = parts.starts.push(Start {
                ws: station(*ws),
                job: JobNo(*job),
                number: *number,
            });
            out.done(done);
        }
    }
    put_report(out, &parts)
}

/// `packets A B N A B N ..`: a report of packets.
pub fn put_packets(out: &mut Out, numbers: &[u32]) {
    let mut parts = no_parts(out.alloc);
    for row in numbers.chunks(3) {
        if let [from, to, count] = row {
            let done = parts.packets.push(PairCount {
                from: station(*from),
                to: station(*to),
                count: *count,
            });
            out.done(done);
        }
    }
    put_report(out, &parts)
}

/// The part of a workstation without a plan.
fn node_part(out: &mut Out, ws: u32, counts: &[u32]) -> NodePart {
    let mut holds = Items::new(out.alloc);
    for row in counts.chunks(4) {
        if let [kind, from, to, count] = row {
            let done = holds.push(FeedCount {
                feed: feed(*kind, *from, *to),
                count: *count,
            });
            out.done(done);
        }
    }
    NodePart {
        ws: station(ws),
        holds,
        listing: Items::new(out.alloc),
    }
}

/// `node W KIND FROM TO COUNT ..`: a report of a workstation that holds these counts of feeds, with an empty listing.
pub fn put_node(out: &mut Out, numbers: &[u32]) {
    if let [ws, counts @ ..] = numbers {
        let mut parts = no_parts(out.alloc);
        let part = node_part(out, *ws, counts);
        let done = parts.nodes.push(part);
        out.done(done);
        put_report(out, &parts)
    }
}

fn summary(
    alloc: Global,
    net: &Net,
    streams: &Counts,
    jobs: &Counts,
    totals: &[u32],
) -> Result<Bytes, NoMemory> {
    match totals {
        [events, starts] => print_summary(alloc, net, streams, jobs, *events, *starts),
        _ => Ok(Items::new(alloc)),
    }
}

/// `summary EVENTS STARTS / STREAMS / JOBS`
pub fn put_summary(out: &mut Out, text: &str) {
    let (totals, rest) = halves(text);
    let (streams, jobs) = halves(rest);
    let totals = numbers(out, totals);
    let streams = numbers(out, streams);
    let jobs = numbers(out, jobs);
    let net = net(out, 1);
    let made = summary(out.alloc, &net, &streams, &jobs, totals.as_slice());
    let made = out.kept(made);
    put_made(out, made)
}

fn state(text: &str) -> u8 {
    (number_u32(text).unwrap_or(255) & 255) as u8
}

/// `stream_word NUMBER`
pub fn put_stream_word(out: &mut Out, text: &str) {
    out.quote("", &stream_word(state(text)))
}

/// `job_word NUMBER`
pub fn put_job_word(out: &mut Out, text: &str) {
    out.quote("", &job_word(state(text)))
}

/// A hash by the rule of Fowler, Noll and Vo: each byte is put in by exclusive or, and then a prime is multiplied.
fn hash(bytes: &[u8]) -> u64 {
    let mut hash: u64 = 14_695_981_039_346_656_037;
    for byte in bytes {
        hash = (hash ^ u64::from(*byte)).wrapping_mul(1_099_511_628_211);
    }
    hash
}

/// `sample JOBS SEED`: how many bytes the sample has, and their hash.
pub fn put_sample(out: &mut Out, numbers: &[u32]) {
    match numbers {
        [jobs, seed] if *jobs <= 2000 => match sample(out.alloc, *jobs, *seed) {
            Ok(record) => out.two("", &record.len(), " ", &hash(record.as_slice())),
            Err(NoMemory) => out.unknown(),
        },
        _ => out.unknown(),
    }
}
