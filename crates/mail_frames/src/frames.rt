//! What two nodes say to each other.
use base_types::{Bytes, Feed, Items, Text};

pub type Frames = Items<Frame>;

/// One message on the stream between two nodes.
#[derive(Drop)]
pub enum Frame {
    /// The bytes of an entry, at most 4,194,304. A frame does not look into them.
    Mail(Bytes),
    /// The sender holds so many entries of the feed.
    Ack(Feed, u32),
    /// A command line of at most 4,096 bytes.
    Command(Text),
    /// The answer to a command, of at most 1,048,576 bytes.
    Reply(Text),
}
