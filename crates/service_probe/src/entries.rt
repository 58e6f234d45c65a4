//! The bytes of entries, frames and message files as text.
//!
//! They are read here field by field, by the tables of the formats, and not by the program's own readers.
use crate::texts::Told;
use outside_mem::MemSpawner;

/// The workstations, by number.
static NAMES: [&str; 3] = ["MDM", "FTA1", "FTA2"];

/// What an entry of a kind says. A digit is a number of so many bytes, and these are other fields: `%` a workstation, `@`
/// counts of events, `*` a list of numbers, `#` a job or a stream, `+` a return code, `?` how an end is judged, `!` why an
/// order is declined.
static BODIES: [&str; 17] = [
    "",
    "newplan 4 cut @ carried * streams 4",
    "added % 4 stream 4",
    "clock 8",
    "released 4 seen @",
    "streamended 4 seen @",
    "untilpassed # dep 2 then 1",
    "launched 4 4 seen @",
    "started 4 4",
    "failed 4 4",
    "ended 4 4 rc + ?",
    "lost 4 4",
    "fulfilled # dep 2",
    "obeyed % 4 ",
    "declined % 4 !",
    "order ",
    "late # dep 2",
];

/// What a command says, in the same way.
static COMMANDS: [&str; 19] = [
    "",
    "adddep #",
    "deldep # 2",
    "release #",
    "altpri # 1",
    "cancel #",
    "confirm job 4",
    "kill job 4",
    "rerun job 4",
    "fence 1",
    "limit 2",
    "limit stream 4 2",
    "total 2 2",
    "reply prompt 2 ?",
    "reply # 2 ?",
    "start",
    "stop",
    "submit",
    "switchmgr %",
];

/// Why an order is declined, by number.
static REASONS: [&str; 11] = [
    "",
    "NotMine",
    "NotThere",
    "Running",
    "NotRunning",
    "NotEnded",
    "Ended",
    "AlreadyThere",
    "OutOfRange",
    "NotMaster",
    "NotBuilt",
];

/// The front of a history of one workstation.
const NETWORK: &str = "$NETWORK
ws MDM
$HISTORY
";

static DIGITS: [char; 16] = [
    '0', '1', '2', '3', '4', '5', '6', '7', '8', '9', 'a', 'b', 'c', 'd', 'e', 'f',
];

/// The number in so many bytes that are taken from the front, the highest first. What is missing counts as 0.
fn number(rest: &mut &[u8], count: usize) -> u64 {
    let mut value = 0u64;
    for byte in part(rest, count) {
        value = value.wrapping_mul(256).wrapping_add(u64::from(*byte));
    }
    value
}

/// So many bytes that are taken from the front, or all that are there.
fn part<'a>(rest: &mut &'a [u8], count: usize) -> &'a [u8] {
    let (part, behind) = rest.split_at(count.min(rest.len()));
    *rest = behind;
    part
}

fn word_of(words: &[&'static str], number: u64) -> &'static str {
    match words.get(number as usize) {
        Some(word) => *word,
        None => "",
    }
}

/// Writes each byte as a character.
pub fn put_bytes(out: &mut Told, bytes: &[u8]) {
    for byte in bytes {
        out.put_char(char::from(*byte));
    }
}

fn put_digit(out: &mut Told, value: u8) {
    if let Some(digit) = DIGITS.get(usize::from(value)) {
        out.put_char(*digit);
    }
}

/// Writes bytes as digits, and ends the line.
pub fn put_hex(out: &mut Told, bytes: &[u8]) {
    for byte in bytes {
        put_digit(out, *byte / 16);
        put_digit(out, *byte % 16);
    }
    out.put("\n");
}

pub fn put_name(out: &mut Told, ws: u64) {
    match NAMES.get(ws as usize) {
        Some(name) => out.put(*name),
        None => out.put_number(ws),
    }
}

/// Numbers, or counts with a workstation each.
fn put_list(out: &mut Told, rest: &mut &[u8], of_stations: bool) {
    let count = number(rest, 4);
    out.put(if count == 0 { "-" } else { "" });
    for i in 0..count {
        out.put(if i > 0 { "," } else { "" });
        if of_stations {
            put_name(out, number(rest, 2));
            out.put(":");
        }
        out.put_number(number(rest, 4));
    }
}

fn put_object(out: &mut Told, rest: &mut &[u8]) {
    let is_job = number(rest, 1) == 0;
    out.put(if is_job { "job " } else { "stream " });
    out.put_number(number(rest, 4));
}

fn put_code(out: &mut Told, code: u64) {
    if code > 2_147_483_647 {
        out.put("-");
        out.put_number(4_294_967_296u64.saturating_sub(code));
    } else {
        out.put_number(code);
    }
}

/// Writes what a mark of a pattern stands for.
fn put_field(out: &mut Told, rest: &mut &[u8], mark: char) {
    match mark {
        '1' => out.put_number(number(rest, 1)),
        '2' => out.put_number(number(rest, 2)),
        '4' => out.put_number(number(rest, 4)),
        '8' => out.put_number(number(rest, 8)),
        '%' => put_name(out, number(rest, 2)),
        '@' => put_list(out, rest, true),
        '*' => put_list(out, rest, false),
        '#' => put_object(out, rest),
        '+' => put_code(out, number(rest, 4)),
        '?' => out.put(if number(rest, 1) == 1 { "good" } else { "bad" }),
        '!' => out.put(word_of(&REASONS, number(rest, 1))),
        _ => out.put_char(mark),
    }
}

fn put_fields(out: &mut Told, rest: &mut &[u8], pattern: &str) {
    for mark in pattern.chars() {
        put_field(out, rest, mark);
    }
}

/// Writes a feed and a place in it.
fn put_feed(out: &mut Told, rest: &mut &[u8]) {
    let is_events = number(rest, 1) == 0;
    put_fields(out, rest, if is_events { "% 4" } else { "%>% 4" });
}

/// Writes the feed, the place and what is said of an entry.
pub fn put_entry(out: &mut Told, bytes: &[u8]) {
    let mut rest = bytes;
    let _version = number(&mut rest, 1);
    put_feed(out, &mut rest);
    out.put(" ");
    let kind = number(&mut rest, 1);
    put_fields(out, &mut rest, word_of(&BODIES, kind));
    if kind == 13 || kind == 15 {
        let command = number(&mut rest, 1);
        put_fields(out, &mut rest, word_of(&COMMANDS, command));
    }
}

/// Writes what a frame is.
pub fn put_frame(out: &mut Told, bytes: &[u8]) {
    match bytes {
        [_, _, _, _, 1, entry @ ..] => {
            out.put("mail ");
            put_entry(out, entry);
        }
        [_, _, _, _, 2, ack @ ..] => {
            let mut ack = ack;
            out.put("ack ");
            put_feed(out, &mut ack);
        }
        [_, _, _, _, 3, line @ ..] => {
            out.put("command ");
            put_bytes(out, line);
        }
        _ => put_hex(out, bytes),
    }
}

/// The next record, where its gate is open.
fn next_record<'a>(rest: &mut &'a [u8]) -> Option<&'a [u8]> {
    if rest.first() != Some(&1) {
        return None;
    }
    let _gate = number(rest, 1);
    let length = number(rest, 4) as usize;
    Some(part(rest, length))
}

/// Writes each entry that a message file keeps as a line, and the bytes that stand behind its last record where they are
/// more than a closed gate.
pub fn put_file(out: &mut Told, bytes: &[u8]) {
    if !bytes.starts_with(b"TWSM\x00\x01") {
        out.put(if bytes.is_empty() {
            "no file"
        } else {
            "no file "
        });
        return put_hex(out, bytes);
    }
    let mut rest = bytes;
    let _header = part(&mut rest, 8);
    for _ in 0..bytes.len() {
        match next_record(&mut rest) {
            Some(entry) => put_entry(out, entry),
            None => break,
        }
        out.put("\n");
    }
    if rest != b"\x00".as_slice() {
        out.put("behind the gate ");
        put_hex(out, rest);
    }
}

/// Writes a history: each entry that a message file keeps, and these starts.
pub fn put_history(out: &mut Told, bytes: &[u8], starts: &str) {
    out.put(NETWORK);
    let mut rest = bytes;
    let _header = part(&mut rest, 8);
    for _ in 0..bytes.len() {
        let Some(entry) = next_record(&mut rest) else {
            break;
        };
        out.put("entry ");
        put_hex(out, entry);
    }
    out.put(starts);
}

/// Writes each launch that was to start as a line of a history.
pub fn put_history_starts(out: &mut Told, jobs: &MemSpawner) {
    for i in 0..jobs.started().len() {
        if let Some((call, _)) = jobs.started().get(i) {
            out.put("start MDM ");
            out.put_number(u64::from(call.job.0));
            out.put(" ");
            out.put_number(u64::from(call.number));
            out.put("\n");
        }
    }
}
