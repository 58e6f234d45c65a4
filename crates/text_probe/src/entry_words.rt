//! Entries read from digits, and shown as the report shows them.
ghost use Rattle.model.specs.Fit.{IsFit};

use crate::arguments::digits;
use crate::document_texts::put_documents;
use crate::outs::Out;
use crate::report_words::{no_parts, printed, put_report};
use base_types::{Copied, Entry, NoMemory, ReportParts};
use entry_codec::{EntryFault, read_entry, write_entry};
use std::alloc::Global;
use std::str;

/// Whether these bytes are the entry's spelling.
fn is_spelling(alloc: Global, entry: &Entry, bytes: &[u8]) -> bool
    requires { IsFit entry.now }
{
    match write_entry(alloc, entry) {
        Ok(spelling) => spelling.as_slice() == bytes,
        Err(NoMemory) => false,
    }
}

/// The entry, if these bytes are its spelling. One that is spelled otherwise is none here.
fn spelled(alloc: Global, entry: Entry, bytes: &[u8]) -> Result<Entry, EntryFault>
    requires { IsFit entry }
{
    if is_spelling(alloc, &entry, bytes) {
        Ok(entry)
    } else {
        Err(EntryFault::NoMemory)
    }
}

fn read(alloc: Global, bytes: &[u8]) -> Result<Entry, EntryFault> {
    if bytes.len() > 100_000 {
        return Err(EntryFault::NoMemory);
    }
    match read_entry(alloc, bytes) {
        Ok(entry) => spelled(alloc, entry, bytes),
        Err(fault) => Err(fault),
    }
}

/// What is behind the first line of a report, up to the line of its starts, and the documents of its entries.
fn put_parts(out: &mut Out, parts: &ReportParts) {
    if let Some(bytes) = printed(out, parts) {
        let text = str::from_utf8(bytes.as_slice()).unwrap_or("");
        let line = text.strip_prefix("events 1\n").unwrap_or(text);
        out.word(line.strip_suffix("\nstarts 0\n").unwrap_or(line));
    }
    for entry in parts.events.as_slice() {
        put_documents(out, &entry.body);
    }
}

fn add_entry(out: &mut Out, parts: &mut ReportParts, entry: Entry) {
    let done = parts.events.push(entry);
    out.done(done);
}

fn put_copy(out: &mut Out, entry: &Entry) {
    let copy = entry.copy();
    if let Some(copy) = out.kept(copy) {
        let mut parts = no_parts(out.alloc);
        add_entry(out, &mut parts, copy);
        put_parts(out, &parts)
    }
}

fn put_read(out: &mut Out, bytes: &[u8]) {
    match read(out.alloc, bytes) {
        Ok(entry) => put_copy(out, &entry),
        Err(fault) => out.debug("", &fault),
    }
}

/// `read_entry DIGITS`: the line in a report of a copy of the entry, and its documents.
pub fn put_entry_of(out: &mut Out, text: &str) {
    match digits(out, text) {
        Some(bytes) => put_read(out, bytes.as_slice()),
        None => out.unknown(),
    }
}

fn add_read(out: &mut Out, parts: &mut ReportParts, bytes: &[u8]) {
    match read(out.alloc, bytes) {
        Ok(entry) => add_entry(out, parts, entry),
        Err(fault) => out.debug("", &fault),
    }
}

fn add(out: &mut Out, parts: &mut ReportParts, text: &str) {
    match digits(out, text) {
        Some(bytes) => add_read(out, parts, bytes.as_slice()),
        None => out.unknown(),
    }
}

/// `events DIGITS DIGITS ..`: a report of these entries.
pub fn put_events(out: &mut Out, text: &str) {
    let mut parts = no_parts(out.alloc);
    for word in text.split(' ') {
        add(out, &mut parts, word);
    }
    put_report(out, &parts)
}
