// A frame from its bytes, of which the first may have come before the others.
ghost use Rattle.std.specs.Prelude.{◌≡◌, ◌+◌, ◌<◌, ◌≤◌, ◌++◌, length, drop, IfOk, slice_index};
ghost use Rattle.std.specs.Str.{IsUtf8};
ghost use Rattle.mail_frames.specs.Spelling.{IsSpelled, FrameBytes, IsAckContent, IsAckOf};

use crate::frames::Frame;
use crate::writes::fill;
use crate::{ACK, BYTES_OF_LENGTH, COMMAND, MAIL};
use base_types::{Bytes, Feed, Growing, NoMemory, Text, Ws};
use std::alloc::Global;

/// How many bytes stand before the content: the length and the kind.
const HEAD: usize = BYTES_OF_LENGTH + 1;

/// The frame whose bytes both have together.
pub fn frame_of(alloc: Global, front: &[u8], back: &[u8]) -> Result<Frame, NoMemory>
    requires { IsSpelled (front.now ++ back.now) }
    ensures { IfOk result (λ f. FrameBytes f (front.now ++ back.now)) }
{
    let kind = kind_of(front, back);
    let (first, others) = content(front, back);
    match kind {
        MAIL => Ok(Frame::Mail(joined(alloc, first, others)?)),
        ACK => {
            let bytes = joined(alloc, first, others)?;
            Ok(ack_of(bytes.as_slice()))
        }
        COMMAND => Ok(Frame::Command(text_of(alloc, first, others)?)),
        _ => Ok(Frame::Reply(text_of(alloc, first, others)?)),
    }
}

/// The byte behind the length.
fn kind_of(front: &[u8], back: &[u8]) -> u8
    requires { 5 ≤ length front.now + length back.now }
    ensures { result ≡ slice_index (front.now ++ back.now) 4 }
{
    if front.len() >= HEAD {
        front[BYTES_OF_LENGTH]
    } else {
        back[BYTES_OF_LENGTH - front.len()]
    }
}

/// What both have behind the kind.
fn content<'a>(front: &'a [u8], back: &'a [u8]) -> (&'a [u8], &'a [u8])
    requires { 5 ≤ length front.now + length back.now }
    ensures { result.0.now ++ result.1.now ≡ drop 5 (front.now ++ back.now) }
{
    if front.len() >= HEAD {
        (&front[HEAD..], back)
    } else {
        (&[], &back[HEAD - front.len()..])
    }
}

/// Both, one behind the other.
fn joined(alloc: Global, front: &[u8], back: &[u8]) -> Result<Bytes, NoMemory>
    requires { length front.now + length back.now ≤ 4194304 }
    ensures { IfOk result (λ bytes. bytes ≡ front.now ++ back.now) }
{
    let mut list = Growing::new(alloc);
    list.reserve((front.len() + back.len()) as u32)?;
    fill(&mut list, front);
    fill(&mut list, back);
    Ok(list.into_items())
}

/// The text that both are, one behind the other.
fn text_of(alloc: Global, front: &[u8], back: &[u8]) -> Result<Text, NoMemory>
    requires short { length front.now + length back.now ≤ 4194304 }
    requires text { IsUtf8 (front.now ++ back.now) }
    ensures { IfOk result (λ text. text ≡ front.now ++ back.now) }
{
    let mut bytes = Vec::with_capacity(alloc, front.len() + back.len())?;
    bytes.extend_from_slice(front)?;
    bytes.extend_from_slice(back)?;
    // The decoder has looked at each byte.
    let text = unsafe { String::from_utf8_unchecked(bytes) };
    Ok(Text::from_string(text))
}

/// The acknowledgement with this content.
fn ack_of(content: &[u8]) -> Frame
    requires { IsAckContent content.now }
    ensures { IsAckOf content.now result }
{
    match content {
        [0, a, b, c, d, e, f] => {
            let feed = Feed::Events(Ws(u16::from_be_bytes([*a, *b])));
            Frame::Ack(feed, u32::from_be_bytes([*c, *d, *e, *f]))
        }
        [1, a, b, c, d, e, f, g, h] => {
            let issuer = Ws(u16::from_be_bytes([*a, *b]));
            let feed = Feed::Orders(issuer, Ws(u16::from_be_bytes([*c, *d])));
            Frame::Ack(feed, u32::from_be_bytes([*e, *f, *g, *h]))
        }
        _ => unreachable!(),
    }
}
