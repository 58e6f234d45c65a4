//! Entries, commands and drafts that questions bring, as digits in base 16.
ghost use Rattle.std.specs.Prelude.{IfSome};
ghost use Rattle.model.specs.Fit.{IsFit};

use crate::outs::Out;
use base_types::{Body, Bytes, Cmd, Copied, Entries, Entry, Items, StreamDraft, StreamDrafts};
use entry_codec::{EntryFault, read_entry};

/// What a digit stands for.
fn value_of(digit: u8) -> Option<u8> {
    match digit {
        b'0'..=b'9' => Some(digit.wrapping_sub(b'0')),
        b'a'..=b'f' => Some(digit.wrapping_sub(b'a').wrapping_add(10)),
        _ => None,
    }
}

fn are_digits(text: &[u8]) -> bool {
    text.iter().all(|digit| value_of(*digit).is_some())
}

fn joined(high: u8, low: u8) -> u8 {
    let (high, low) = (value_of(high).unwrap_or(0), value_of(low).unwrap_or(0));
    high.wrapping_mul(16).wrapping_add(low)
}

/// The bytes of digits, two for each.
fn bytes_of(out: &mut Out, digits: &[u8]) -> Bytes {
    let mut bytes = Items::new(out.alloc);
    for pair in digits.chunks(2) {
        if let [high, low] = pair {
            let done = bytes.push(joined(*high, *low));
            out.done(done);
        }
    }
    bytes
}

fn entry_in(out: &mut Out, bytes: &[u8]) -> Option<Entry>
    ensures { IfSome result IsFit }
{
    if bytes.len() > 4_294_967_295 {
        return None;
    }
    match read_entry(out.alloc, bytes) {
        Ok(entry) => Some(entry),
        Err(EntryFault::NoMemory) => {
            out.no_memory();
            None
        }
        Err(_) => None,
    }
}

/// The entry of a word of digits. None where it is none.
pub fn entry(out: &mut Out, word: &str) -> Option<Entry>
    ensures { IfSome result IsFit }
{
    let digits = word.as_bytes();
    if !are_digits(digits) {
        return None;
    }
    let bytes = bytes_of(out, digits);
    entry_in(out, bytes.as_slice())
}

/// Adds the entry of a word of digits, and tells whether it is one.
fn add_entry(out: &mut Out, list: &mut Entries, word: &str) -> bool {
    match entry(out, word) {
        Some(entry) => {
            let done = list.push(entry);
            out.done(done);
            true
        }
        None => false,
    }
}

fn add_entries(out: &mut Out, list: &mut Entries, text: &str) -> bool {
    for word in text.split(' ') {
        if !add_entry(out, list, word) {
            return false;
        }
    }
    true
}

/// The entries of words of digits. None where one of them is none.
pub fn entries(out: &mut Out, text: &str) -> Option<Entries> {
    let mut list = Items::new(out.alloc);
    if text.is_empty() || add_entries(out, &mut list, text) {
        Some(list)
    } else {
        None
    }
}

fn ordered(out: &mut Out, entry: &Entry) -> Option<Cmd> {
    match &entry.body {
        Body::Order(cmd) => out.kept(cmd.copy()),
        _ => None,
    }
}

/// The command of the order that is a word of digits. None where it is none.
pub fn command(out: &mut Out, word: &str) -> Option<Cmd> {
    match entry(out, word) {
        Some(entry) => ordered(out, &entry),
        None => None,
    }
}

fn add_copy(out: &mut Out, drafts: &mut StreamDrafts, draft: &StreamDraft) {
    if let Some(copy) = out.kept(draft.copy()) {
        let done = drafts.push(copy);
        out.done(done);
    }
}

/// Adds the draft of a command that submits one, and tells whether it does.
fn add_draft(out: &mut Out, drafts: &mut StreamDrafts, cmd: &Cmd) -> bool {
    match cmd {
        Cmd::Submit(draft) => {
            add_copy(out, drafts, draft);
            true
        }
        _ => false,
    }
}

fn add_draft_of(out: &mut Out, drafts: &mut StreamDrafts, word: &str) -> bool {
    match command(out, word) {
        Some(cmd) => add_draft(out, drafts, &cmd),
        None => false,
    }
}

fn add_drafts(out: &mut Out, drafts: &mut StreamDrafts, text: &str) -> bool {
    for word in text.split(' ') {
        if !add_draft_of(out, drafts, word) {
            return false;
        }
    }
    true
}

/// The drafts of orders that submit them, as words of digits. None where one of them is none.
pub fn drafts(out: &mut Out, text: &str) -> Option<StreamDrafts> {
    let mut drafts = Items::new(out.alloc);
    if text.is_empty() || add_drafts(out, &mut drafts, text) {
        Some(drafts)
    } else {
        None
    }
}
