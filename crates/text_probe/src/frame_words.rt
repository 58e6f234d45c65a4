//! Frames written, and streams fed in pieces.
use crate::arguments::{digits, feed, put_digits};
use crate::outs::Out;
use base_types::{Bytes, Items, NoMemory, Text};
use mail_frames::{Decoder, Fed, Frame, write_frame};
use std::alloc::Global;

fn put_frame(out: &mut Out, frame: &Frame) {
    match frame {
        Frame::Mail(entry) => {
            out.word("mail<");
            put_digits(out, entry.as_slice());
            out.word(">")
        }
        Frame::Ack(feed, count) => {
            out.debug("ack<", feed);
            out.two(" ", count, "", &">")
        }
        Frame::Command(text) => out.quote("command", text),
        Frame::Reply(text) => out.quote("reply", text),
    }
}

fn put_fed(out: &mut Out, fed: &Fed) {
    for frame in fed.frames.as_slice() {
        put_frame(out, frame);
    }
    if let Some(place) = fed.bad {
        out.quote("bad", &place);
    }
    out.word(".")
}

fn put_piece(out: &mut Out, decoder: &mut Decoder, piece: &[u8]) {
    match decoder.feed(piece) {
        Ok(fed) => put_fed(out, &fed),
        Err(NoMemory) => out.unknown(),
    }
}

fn put_word(out: &mut Out, decoder: &mut Decoder, word: &str) {
    match digits(out, word) {
        Some(piece) => put_piece(out, decoder, piece.as_slice()),
        None => out.unknown(),
    }
}

/// `feed DIGITS DIGITS ..`: what each piece of a stream brings, and a full stop.
pub fn put_feed(out: &mut Out, text: &str) {
    let mut decoder = Decoder::new(out.alloc);
    for word in text.split(' ') {
        put_word(out, &mut decoder, word);
    }
}

fn put_written(out: &mut Out, bytes: Result<Bytes, NoMemory>) {
    match bytes {
        Ok(bytes) => put_digits(out, bytes.as_slice()),
        Err(NoMemory) => out.unknown(),
    }
}

fn mail(alloc: Global, entry: Bytes) -> Result<Bytes, NoMemory> {
    if entry.len() > 4096 {
        return Err(NoMemory);
    }
    write_frame(alloc, &Frame::Mail(entry))
}

/// `mail DIGITS`: the digits of the frame.
pub fn put_mail(out: &mut Out, text: &str) {
    let entry = digits(out, text).unwrap_or(Items::new(out.alloc));
    let bytes = mail(out.alloc, entry);
    put_written(out, bytes)
}

fn command(alloc: Global, text: &str) -> Result<Bytes, NoMemory> {
    if text.len() > 4096 {
        return Err(NoMemory);
    }
    let text = Text::of(alloc, text)?;
    write_frame(alloc, &Frame::Command(text))
}

/// `command TEXT`: the digits of the frame.
pub fn put_command(out: &mut Out, text: &str) {
    let bytes = command(out.alloc, text);
    put_written(out, bytes)
}

fn reply(alloc: Global, text: &str) -> Result<Bytes, NoMemory> {
    if text.len() > 4096 {
        return Err(NoMemory);
    }
    let text = Text::of(alloc, text)?;
    write_frame(alloc, &Frame::Reply(text))
}

/// `reply TEXT`: the digits of the frame.
pub fn put_reply(out: &mut Out, text: &str) {
    let bytes = reply(out.alloc, text);
    put_written(out, bytes)
}

/// `ack KIND FROM TO COUNT`: the digits of the frame.
pub fn put_ack(out: &mut Out, numbers: &[u32]) {
    if let [kind, from, to, count] = numbers {
        let frame = Frame::Ack(feed(*kind, *from, *to), *count);
        let bytes = write_frame(out.alloc, &frame);
        put_written(out, bytes)
    }
}
