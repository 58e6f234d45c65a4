//! Frames written as bytes.
ghost use Rattle.std.specs.Prelude.{◌≡◌, ◌+◌, ◌≤◌, ◌++◌, length, IfOk, OnOk};
ghost use Rattle.std.specs.List.{AllByRecursion};
ghost use Rattle.model.specs.Fields.{u8_bytes, u32_bytes};
ghost use Rattle.model.specs.Ranges.{FeedInRange, IsU8, IsU32};
ghost use Rattle.model.specs.Spelling.{feed_bytes};
ghost use Rattle.mail_frames.specs.Spelling.{IsSendable, FrameBytes};

use crate::frames::Frame;
use crate::{ACK, COMMAND, MAIL, REPLY};
use base_types::{Bytes, Feed, Growing, Items, NoMemory};
use byte_fields::{put_u8, put_u16, put_u32};
use std::alloc::Global;

/// The bytes of the frame: its length, its kind and its content.
pub fn write_frame(alloc: Global, f: &Frame) -> Result<Bytes, NoMemory>
    requires { IsSendable f.now }
    ensures { IfOk result (λ bytes. FrameBytes f.now bytes) }
{
    match f {
        Frame::Mail(entry) => framed(alloc, MAIL, entry.as_slice()),
        Frame::Ack(feed, count) => {
            let content = ack_content(alloc, feed, *count)?;
            framed(alloc, ACK, content.as_slice())
        }
        Frame::Command(text) => framed(alloc, COMMAND, text.as_str().as_bytes()),
        Frame::Reply(text) => framed(alloc, REPLY, text.as_str().as_bytes()),
    }
}

/// A feed and a count.
fn ack_content(alloc: Global, feed: &Feed, count: u32) -> Result<Bytes, NoMemory>
    ensures ok { IfOk result (λ bytes. bytes ≡ feed_bytes feed.now ++ u32_bytes count) }
    ensures range { IfOk result (λ bytes. FeedInRange feed.now × IsU32 count) }
{
    let mut out = Items::new(alloc);
    put_feed(&mut out, feed)?;
    put_u32(&mut out, count)?;
    Ok(out)
}

fn put_feed(out: &mut Bytes, feed: &Feed) -> Result<(), NoMemory>
    ensures ok { OnOk result (out.new ≡ out.old ++ feed_bytes feed.now) }
    ensures range { OnOk result (FeedInRange feed.now) }
{
    match feed {
        Feed::Events(w) => {
            put_u8(out, 0)?;
            put_u16(out, w.0)
        }
        Feed::Orders(a, w) => {
            put_u8(out, 1)?;
            put_u16(out, a.0)?;
            put_u16(out, w.0)
        }
    }
}

/// The length, the kind and the content, for which room is made at once.
fn framed(alloc: Global, kind: u8, content: &[u8]) -> Result<Bytes, NoMemory>
    requires { length content.now ≤ 4194304 }
    ensures ok { IfOk result (λ bytes.
        bytes ≡ u32_bytes (1 + length content.now) ++ u8_bytes kind ++ content.now) }
    ensures range { OnOk result (AllByRecursion IsU8 content.now) }
{
    let length = content.len() as u32 + 1;
    let mut list = Growing::new(alloc);
    list.reserve(length + 4)?;
    fill(&mut list, &length.to_be_bytes());
    fill(&mut list, &[kind]);
    fill(&mut list, content);
    Ok(list.into_items())
}

/// Adds bytes for which there is room.
pub(crate) fn fill(list: &mut Growing<u8>, bytes: &[u8])
    requires { length bytes.now ≤ list.old.spare }
    ensures items { list.new.items ≡ list.old.items ++ bytes.now }
    ensures less { list.new.spare + length bytes.now ≡ list.old.spare }
{
    for byte in bytes {
        list.put(*byte);
    }
}
