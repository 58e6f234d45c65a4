//! The parts of what a call did, as lines.
//!
//! | Part | What is told |
//! |---|---|
//! | `output` | what was written |
//! | `kept` | each entry of the file, and what stands behind its closed gate |
//! | `file` | the bytes of the file |
//! | `begins`, `peers` | the beginnings of the links, with what addresses |
//! | `replies`, `sends`, `frames`, `mails` | what was replied; what was sent; its bytes; the entries in it |
//! | `asked` | which links were asked to begin and to end |
//! | `starts`, `kills`, `probes` | what was started and killed, which files were looked for |
//! | `calls` | the beginnings, replies, sends, links, starts, kills and probes |
//! | `all` | the output, what is kept, and the calls |
//! | `left` | what the next call of clock, link, jobs and disk gives; it is told last |
//! | `history` | what the file keeps and what was started since the disk was set, as a history |
use crate::entries::{put_bytes, put_entry, put_file, put_frame, put_hex, put_history, put_name};
use crate::objects::Objects;
use crate::stages::Stage;
use crate::texts::Told;
use base_types::Ws;
use outside::{Arrival, Clock, End, Failed, Link, Spawner};
use outside_mem::{Ask, BegunBy, MemLink, MemSpawner};
use probe_mem::MemProber;

/// Writes a part. Whether there is one of that name.
pub fn put_part(out: &mut Told, stage: &mut Stage, part: &str) -> bool {
    let file = stage.file.as_slice();
    match part {
        "output" => put_bytes(out, stage.objects.sink.bytes()),
        "kept" => put_file(out, file),
        "calls" => put_calls(out, &stage.objects),
        "all" => put_all(out, stage),
        "file" => put_hex(out, file),
        "history" => put_history(out, file, stage.starts.as_str()),
        "left" => put_left(out, stage),
        _ => return put_call(out, &stage.objects, part),
    }
    true
}

fn put_call(out: &mut Told, objects: &Objects, part: &str) -> bool {
    match part {
        "begins" => put_begins(out, &objects.link),
        "peers" => put_peers(out, &objects.link),
        "replies" => put_replies(out, &objects.link),
        "sends" => put_sends(out, &objects.link),
        "frames" => put_frames(out, &objects.link),
        "mails" => put_mails(out, &objects.link),
        "asked" => put_asked(out, &objects.link),
        "starts" => put_starts(out, &objects.jobs),
        "kills" => put_kills(out, &objects.jobs),
        "probes" => put_probes(out, &objects.files),
        _ => return false,
    }
    true
}

fn put_all(out: &mut Told, stage: &Stage) {
    put_bytes(out, stage.objects.sink.bytes());
    put_file(out, stage.file.as_slice());
    put_calls(out, &stage.objects);
}

fn put_calls(out: &mut Told, objects: &Objects) {
    put_begins(out, &objects.link);
    put_replies(out, &objects.link);
    put_sends(out, &objects.link);
    put_asked(out, &objects.link);
    put_starts(out, &objects.jobs);
    put_kills(out, &objects.jobs);
    put_probes(out, &objects.files);
}

/// Ends the line of a call.
fn put_end(out: &mut Told, ok: bool) {
    out.put(if ok { "\n" } else { " failed\n" });
}

fn put_station(out: &mut Told, front: &str, ws: Option<Ws>) {
    if let Some(ws) = ws {
        out.put(front);
        put_name(out, u64::from(ws.0));
    }
}

fn put_begun(out: &mut Told, call: &BegunBy) {
    out.put("begins");
    put_station(out, " as ", call.me);
    put_station(out, " to ", call.hop);
    put_end(out, call.ok);
}

fn put_begins(out: &mut Told, link: &MemLink) {
    for i in 0..link.begun().len() {
        if let Some(call) = link.begun().get(i) {
            put_begun(out, call);
        }
    }
}

fn put_peers(out: &mut Told, link: &MemLink) {
    let peers = link.begun().peers();
    for i in 0..peers.len() {
        if let Some((peer, host)) = peers.get(i) {
            out.put_number(u64::from(peer.ws.0));
            out.put(" ");
            out.put_number(u64::from(peer.port));
            out.put(" ");
            put_bytes(out, host);
            out.put("\n");
        }
    }
}

/// What a reply says: its frame is that of a text.
fn put_reply(out: &mut Told, ok: bool, bytes: &[u8]) {
    out.put(if ok { "reply " } else { "reply failed " });
    match bytes {
        [_, _, _, _, 4] => out.put("nothing\n"),
        [_, _, _, _, 4, text @ ..] => put_bytes(out, text),
        _ => put_hex(out, bytes),
    }
}

fn put_replies(out: &mut Told, link: &MemLink) {
    for i in 0..link.replied().len() {
        if let Some((ok, bytes)) = link.replied().get(i) {
            put_reply(out, *ok, bytes);
        }
    }
}

fn put_sends(out: &mut Told, link: &MemLink) {
    for i in 0..link.sent().len() {
        if let Some((call, bytes)) = link.sent().get(i) {
            out.put("to ");
            put_name(out, u64::from(call.to.0));
            out.put(" ");
            put_frame(out, bytes);
            put_end(out, call.ok);
        }
    }
}

fn put_frames(out: &mut Told, link: &MemLink) {
    for i in 0..link.sent().len() {
        if let Some((_, bytes)) = link.sent().get(i) {
            put_hex(out, bytes);
        }
    }
}

fn put_mails(out: &mut Told, link: &MemLink) {
    for i in 0..link.sent().len() {
        if let Some((_, [_, _, _, _, 1, entry @ ..])) = link.sent().get(i) {
            put_entry(out, entry);
            out.put("\n");
        }
    }
}

fn put_asked(out: &mut Told, link: &MemLink) {
    for ask in link.asked() {
        let (word, ws) = match ask {
            Ask::Raise(ws) => ("raise ", ws.0),
            Ask::Close(ws) => ("close ", ws.0),
        };
        out.put(word);
        put_name(out, u64::from(ws));
        out.put("\n");
    }
}

fn put_launch(out: &mut Told, front: &str, job: u32, number: u32) {
    out.put(front);
    out.put_number(u64::from(job));
    out.put(" ");
    out.put_number(u64::from(number));
}

fn put_starts(out: &mut Told, jobs: &MemSpawner) {
    for i in 0..jobs.started().len() {
        if let Some((call, text)) = jobs.started().get(i) {
            put_launch(out, "start ", call.job.0, call.number);
            out.put(" ");
            put_bytes(out, text);
            out.put(if call.script { " as a script" } else { "" });
            put_end(out, call.ok);
        }
    }
}

fn put_kills(out: &mut Told, jobs: &MemSpawner) {
    for call in jobs.killed() {
        put_launch(out, "kill ", call.job.0, call.number);
        out.put("\n");
    }
}

fn put_probes(out: &mut Told, files: &MemProber) {
    for i in 0..files.asked().len() {
        if let Some((answer, path)) = files.asked().get(i) {
            out.put("probe ");
            put_bytes(out, path);
            out.put(match answer {
                Ok(true) => " there\n",
                Ok(false) => " missing\n",
                Err(Failed) => " failed\n",
            });
        }
    }
}

fn put_next_arrival(out: &mut Told, arrival: &Arrival) {
    match arrival {
        Arrival::Up(ws) => {
            out.put(", up ");
            out.put_number(u64::from(ws.0));
        }
        Arrival::Nothing => out.put(", nothing"),
        _ => out.put(", something"),
    }
}

fn put_next_end(out: &mut Told, end: Result<Option<End>, Failed>) {
    match end {
        Ok(Some(end)) => {
            out.put(", end of ");
            out.put_number(u64::from(end.job.0));
        }
        Ok(None) => out.put(", no end"),
        Err(Failed) => out.put(", poll fails"),
    }
}

/// Tries each object once more.
fn put_left(out: &mut Told, stage: &mut Stage) {
    let objects = &mut stage.objects;
    out.put("left reading ");
    out.put_number(objects.clock.now().0);
    put_next_arrival(out, &objects.link.poll());
    put_next_end(out, objects.jobs.poll());
    let replies = objects.link.reply(b"a").is_ok();
    out.put(if replies { ", reply" } else { ", reply fails" });
    out.put(if stage.ended.syncs {
        ", sync\n"
    } else {
        ", sync fails\n"
    });
}
