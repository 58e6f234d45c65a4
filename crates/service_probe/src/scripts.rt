//! The lines of scripts.
//!
//! | Line | What it does |
//! |---|---|
//! | `# TEXT`, the empty line | nothing |
//! | `== TEXT` | the line is written |
//! | `words A B C` | the words of the calls: two stand before a blank each, and the third is the rest |
//! | `word A` | one word more |
//! | `input` | the input of the calls is the lines behind it up to `.` |
//! | `text T`, `bytes HEX`, `noted` | it is this text with no line feed, these bytes, what was noted |
//! | `fill N T` | it is this text N times |
//! | `disk HEX` | the disk holds these bytes; from then on it holds what the last call left |
//! | `aside`, `back` | what it holds is kept aside; is what was kept so |
//! | `call` | calls `tws`, and writes its status |
//! | `tell PART`, `note PART` | a part of what the call did is written (`parts`); is noted |
//! | `same PART` | writes whether the part is what was noted |
//! | `among PART` | writes whether each line that was noted is a line of the part |
//! | `each A B` .. `done` | the lines between are followed once for each number from A to B, which is `n` in them |
//!
//! What comes to the next call, in any order; what is of one kind comes in its order:
//!
//! | Line | What comes |
//! |---|---|
//! | `at T` | a reading of the clock |
//! | `asks LINE` | a client with this line |
//! | `client HEX`, `from W HEX` | bytes of a client, of a workstation |
//! | `idle` | a client without a byte, so that nothing comes in this turn |
//! | `no memory` | there is no memory for what arrived |
//! | `up W`, `down W` | a link began, ended |
//! | `hears W`, `clients` | each frame that the last call sent: from a workstation, from a client |
//! | `answers W` | the last reply of the last call, from a workstation |
//! | `runs`, `ended J N RC` | no end of a process, the end of a launch |
//! | `file there`, `file missing`, `file unknown` | what is told of the next file that is looked for |
//! | `fails OBJECT N` | call N of `source`, `sink`, `disk`, `link` or `jobs` fails |
//! | `stops N`, `tears N` | the disk makes N calls, and then all fail; the next write leaves half of its piece besides |
use crate::objects::{Comes, copied};
use crate::parts::put_part;
use crate::stages::Stage;
use crate::texts::Told;
use base_types::{Bytes, Items, JobNo, Moment, Text, Ws};
use outside::{Arrival, End, Failed};
use std::alloc::Global;

/// How many calls fail once a disk stops.
const REST: u32 = 40;

/// Follows a script. Where a line is not understood, it is told, and the answer is false.
pub fn follow(stage: &mut Stage, alloc: Global, script: &str, out: &mut Told) -> bool {
    for section in script.split("\ndone") {
        let followed = match section.split_once("\neach ") {
            None => follow_lines(stage, alloc, section, out),
            Some((before, block)) => {
                follow_lines(stage, alloc, before, out) && follow_rounds(stage, alloc, block, out)
            }
        };
        if !followed {
            return false;
        }
    }
    true
}

/// What stands before the first blank and behind it. Where there is none, that is all and nothing.
fn halves(text: &str) -> (&str, &str) {
    text.split_once(' ').unwrap_or((text, ""))
}

/// The first and the last round of a block, and its lines.
fn rounds_of(block: &str) -> Option<(u32, u32, &str)> {
    let (bounds, lines) = block.split_once('\n')?;
    let (first, last) = halves(bounds);
    match (number(first), number(last)) {
        (Some(first), Some(last)) => Some((first, last, lines)),
        _ => None,
    }
}

fn follow_rounds(stage: &mut Stage, alloc: Global, block: &str, out: &mut Told) -> bool {
    let Some((first, last, lines)) = rounds_of(block) else {
        return false;
    };
    for round in first..=last {
        stage.comes.round = round;
        out.put("round ");
        out.put_number(u64::from(round));
        out.put("\n");
        if !follow_lines(stage, alloc, lines, out) {
            return false;
        }
    }
    true
}

fn follow_lines(stage: &mut Stage, alloc: Global, lines: &str, out: &mut Told) -> bool {
    for line in lines.split('\n') {
        let obeyed = if stage.reads_input {
            read_input(stage, line)
        } else {
            obey(stage, alloc, line, out)
        };
        if !obeyed {
            out.put("not understood: ");
            out.put(line);
            out.put("\n");
            return false;
        }
    }
    true
}

fn read_input(stage: &mut Stage, line: &str) -> bool {
    if line == "." {
        stage.reads_input = false;
        return true;
    }
    extend(&mut stage.input, line.as_bytes()) && extend(&mut stage.input, b"\n")
}

fn extend(bytes: &mut Bytes, more: &[u8]) -> bool {
    for byte in more {
        if bytes.push(*byte).is_err() {
            return false;
        }
    }
    true
}

/// Obeys a line. Whether it is understood.
fn obey(stage: &mut Stage, alloc: Global, line: &str, out: &mut Told) -> bool {
    let (word, rest) = halves(line);
    match word {
        "" | "#" => true,
        "==" => {
            out.put(line);
            out.put("\n");
            true
        }
        "call" => call(stage, alloc, out),
        "tell" => put_part(out, stage, rest),
        "note" => note(stage, alloc, rest),
        "same" | "among" => judge(out, stage, alloc, word, rest),
        _ => set(stage, alloc, word, rest),
    }
}

fn call(stage: &mut Stage, alloc: Global, out: &mut Told) -> bool {
    let Some(status) = stage.call(alloc) else {
        return false;
    };
    out.put("status ");
    out.put_number(u64::from(status));
    out.put("\n");
    true
}

fn note(stage: &mut Stage, alloc: Global, part: &str) -> bool {
    let mut text = Told::new(alloc);
    let is_part = put_part(&mut text, stage, part);
    stage.noted = text;
    is_part
}

fn judge(out: &mut Told, stage: &mut Stage, alloc: Global, word: &str, part: &str) -> bool {
    let mut text = Told::new(alloc);
    let is_part = put_part(&mut text, stage, part);
    let noted = stage.noted.as_str();
    out.put(if word == "among" {
        are_among(noted, text.as_str())
    } else {
        is_same(noted, text.as_str())
    });
    is_part
}

fn is_same(noted: &str, text: &str) -> &'static str {
    if noted == text {
        "the same\n"
    } else {
        "NOT THE SAME\n"
    }
}

fn are_among(noted: &str, text: &str) -> &'static str {
    for line in noted.split('\n') {
        if !text.split('\n').any(|other| other == line) {
            return "NOT AMONG THEM\n";
        }
    }
    "among them\n"
}

/// Obeys a line that sets words or input.
fn set(stage: &mut Stage, alloc: Global, word: &str, rest: &str) -> bool {
    match word {
        "words" => set_words(stage, alloc, rest),
        "word" => add(&mut stage.words, Text::of(alloc, rest).ok()),
        "input" => {
            stage.reads_input = true;
            set_bytes(&mut stage.input, Some(Items::new(alloc)))
        }
        "text" => set_bytes(&mut stage.input, copied(alloc, rest.as_bytes())),
        "bytes" => set_bytes(&mut stage.input, bytes_of(alloc, rest)),
        "noted" => {
            let noted = copied(alloc, stage.noted.as_str().as_bytes());
            set_bytes(&mut stage.input, noted)
        }
        "fill" => set_bytes(&mut stage.input, filled(alloc, rest)),
        _ => set_disk(stage, alloc, word, rest),
    }
}

fn set_bytes(bytes: &mut Bytes, with: Option<Bytes>) -> bool {
    match with {
        Some(with) => {
            *bytes = with;
            true
        }
        None => false,
    }
}

fn filled(alloc: Global, text: &str) -> Option<Bytes> {
    let (count, piece) = text.split_once(' ')?;
    let count = number(count)?;
    let mut bytes = Items::new(alloc);
    if repeat(&mut bytes, count, piece) {
        Some(bytes)
    } else {
        None
    }
}

fn repeat(bytes: &mut Bytes, count: u32, piece: &str) -> bool {
    for _ in 0..count {
        if !extend(bytes, piece.as_bytes()) {
            return false;
        }
    }
    true
}

fn set_words(stage: &mut Stage, alloc: Global, words: &str) -> bool {
    stage.words = Items::new(alloc);
    for word in words.splitn(3, ' ') {
        if !add(&mut stage.words, Text::of(alloc, word).ok()) {
            return false;
        }
    }
    true
}

/// Obeys a line that sets the disk, or tells that what the last call sent comes.
fn set_disk(stage: &mut Stage, alloc: Global, word: &str, rest: &str) -> bool {
    match word {
        "disk" => {
            stage.starts = Told::new(alloc);
            set_bytes(&mut stage.file, bytes_of(alloc, rest))
        }
        "aside" => set_bytes(&mut stage.aside, copied(alloc, stage.file.as_slice())),
        "back" => set_bytes(&mut stage.file, copied(alloc, stage.aside.as_slice())),
        "clients" => stage.hear_sent(alloc, &None),
        "hears" => match workstation(rest) {
            Some(from) => stage.hear_sent(alloc, &Some(from)),
            None => false,
        },
        "answers" => match workstation(rest) {
            Some(from) => stage.hear_reply(alloc, &Some(from)),
            None => false,
        },
        _ => come(&mut stage.comes, alloc, word, rest),
    }
}

/// Adds what a line tells, where it is understood.
fn add<T: Drop>(list: &mut Items<T>, item: Option<T>) -> bool {
    match item {
        Some(item) => list.push(item).is_ok(),
        None => false,
    }
}

/// Obeys a line that tells what comes.
fn come(comes: &mut Comes, alloc: Global, word: &str, rest: &str) -> bool {
    match word {
        "at" => add(&mut comes.readings, reading(rest)),
        "runs" => add(&mut comes.ends, Some(None)),
        "ended" => add(&mut comes.ends, end(rest)),
        "file" => add(&mut comes.answers, answer(rest)),
        "fails" => fail(comes, rest),
        "stops" => stop(comes, rest),
        "tears" => {
            comes.tears = true;
            stop(comes, rest)
        }
        _ => add(&mut comes.arrivals, arrival(alloc, word, rest)),
    }
}

fn arrival(alloc: Global, word: &str, rest: &str) -> Option<Arrival> {
    match word {
        "asks" => client(framed(alloc, 3, rest)),
        "client" => client(bytes_of(alloc, rest)),
        "idle" => Some(Arrival::Client(Items::new(alloc))),
        "no" => Some(Arrival::NoMemory),
        "up" | "down" => change(word, rest),
        "from" => bytes_from(alloc, rest),
        _ => None,
    }
}

fn client(bytes: Option<Bytes>) -> Option<Arrival> {
    match bytes {
        Some(bytes) => Some(Arrival::Client(bytes)),
        None => None,
    }
}

/// A link that began or ended.
fn change(word: &str, ws: &str) -> Option<Arrival> {
    match workstation(ws) {
        Some(ws) if word == "up" => Some(Arrival::Up(ws)),
        Some(ws) => Some(Arrival::Down(ws)),
        None => None,
    }
}

fn bytes_from(alloc: Global, text: &str) -> Option<Arrival> {
    let (from, hex) = text.split_once(' ')?;
    match workstation(from) {
        Some(from) => sent(from, bytes_of(alloc, hex)),
        None => None,
    }
}

fn sent(from: Ws, bytes: Option<Bytes>) -> Option<Arrival> {
    match bytes {
        Some(bytes) => Some(Arrival::Bytes(from, bytes)),
        None => None,
    }
}

/// A frame of a kind.
fn framed(alloc: Global, kind: u8, content: &str) -> Option<Bytes> {
    let length = (content.len() as u64).saturating_add(1);
    let [_, _, _, _, first, second, third, last] = length.to_be_bytes();
    let mut bytes = Items::new(alloc);
    let front = [first, second, third, last, kind];
    if extend(&mut bytes, &front) && extend(&mut bytes, content.as_bytes()) {
        return Some(bytes);
    }
    None
}

fn digit(byte: u8) -> Option<u8> {
    match byte {
        b'0'..=b'9' => Some(byte - b'0'),
        b'a'..=b'f' => Some(byte - b'a' + 10),
        _ => None,
    }
}

/// The bytes of digits in base 16. Blanks are passed over.
fn bytes_of(alloc: Global, text: &str) -> Option<Bytes> {
    let mut bytes = Items::new(alloc);
    if add_bytes(&mut bytes, text) {
        Some(bytes)
    } else {
        None
    }
}

/// Adds these bytes, and tells whether they are whole.
fn add_bytes(bytes: &mut Bytes, text: &str) -> bool {
    let mut high = None;
    for byte in text.as_bytes() {
        if *byte != b' ' {
            let Some(low) = digit(*byte) else {
                return false;
            };
            high = match high {
                None => Some(low),
                Some(high) => {
                    if bytes
                        .push(u8::wrapping_mul(high, 16).wrapping_add(low))
                        .is_err()
                    {
                        return false;
                    }
                    None
                }
            };
        }
    }
    high.is_none()
}

fn number(text: &str) -> Option<u32> {
    text.parse::<u32>().ok()
}

fn reading(text: &str) -> Option<Moment> {
    match text.parse::<u64>() {
        Ok(number) => Some(Moment(number)),
        Err(_) => None,
    }
}

fn workstation(text: &str) -> Option<Ws> {
    match text.parse::<u16>() {
        Ok(number) => Some(Ws(number)),
        Err(_) => None,
    }
}

fn end(text: &str) -> Option<Option<End>> {
    let (job, rest) = halves(text);
    let (launch, rc) = halves(rest);
    match (number(job), number(launch), rc.parse::<i32>().ok()) {
        (Some(job), Some(number), Some(rc)) => Some(Some(End {
            job: JobNo(job),
            number,
            rc,
        })),
        _ => None,
    }
}

fn answer(text: &str) -> Option<Result<bool, Failed>> {
    match text {
        "there" => Some(Ok(true)),
        "missing" => Some(Ok(false)),
        "unknown" => Some(Err(Failed)),
        _ => None,
    }
}

/// The number of a call: `n` is that of the round.
fn call_number(comes: &Comes, text: &str) -> Option<u32> {
    if text == "n" {
        return Some(comes.round);
    }
    number(text)
}

fn fail(comes: &mut Comes, text: &str) -> bool {
    let Some((object, call)) = text.split_once(' ') else {
        return false;
    };
    let call = call_number(comes, call);
    match object {
        "source" => add(&mut comes.source, call),
        "sink" => add(&mut comes.sink, call),
        "disk" => add(&mut comes.disk, call),
        "link" => add(&mut comes.link, call),
        "jobs" => add(&mut comes.jobs, call),
        _ => false,
    }
}

/// All calls of the disk fail behind so many.
fn stop(comes: &mut Comes, text: &str) -> bool {
    let Some(calls) = call_number(comes, text) else {
        return false;
    };
    for call in 1..REST {
        if comes.disk.push(calls.saturating_add(call)).is_err() {
            return false;
        }
    }
    true
}
