//! The rows of streams: whether they are released or ended, and the limit that was set.
ghost use Rattle.std.specs.Prelude.{◌≡◌, ◌+◌, ◌<◌, ◌^◌, ◌++◌, [], ◌∷◌, List, ℕ, IfSome, IsSome, length};
ghost use Rattle.model.specs.Types.{Entry as Taken};
ghost use Rattle.model.specs.History.{list_of};
ghost use Rattle.owner_rows.specs.Streams.{IsStreamRow, stream_with};
ghost use Rattle.owner_rows.specs.Subjects.{key_in, stream_in};
ghost use Rattle.owner_rows.specs.Tables.{AreRows, has_row};

use crate::body_facts::{is_end, is_release, stream_limit_of};
use crate::subjects::stream_key;
use crate::tables::Table;
use base_types::{Body, Entry};

/// What the events of a workstation tell of a stream.
#[derive(Clone, Copy)]
pub(crate) struct StreamRow {
    pub(crate) released: bool,
    pub(crate) ended: bool,
    /// The limit that was set last.
    pub(crate) limit: Option<u16>,
}

impl StreamRow {
    /// The row of no events.
    pub(crate) fn blank() -> StreamRow
        ensures { (s : ℕ) → IsStreamRow [] s result }
    {
        StreamRow {
            released: false,
            ended: false,
            limit: None,
        }
    }

    /// The row after one more body.
    fn after(&self, s: u64, body: &Body) -> StreamRow
        ensures { result ≡ stream_with s body.now self.now }
    {
        StreamRow {
            released: self.released || is_release(s, body),
            ended: self.ended || is_end(s, body),
            limit: stream_limit_of(s, body).or(self.limit),
        }
    }
}

/// The rows of streams after one more entry, for whose row the memory is there.
pub(crate) fn tell_stream(streams: &mut Table<StreamRow>, e: &Entry)
    requires { IfSome (key_in stream_in e.now) (λ k. IsSome (has_row streams.old k)) }
    ensures { (kept : List Taken) → length (list_of kept e.now.feed) + 1 < 2 ^ 32
        → AreRows IsStreamRow kept streams.old → AreRows IsStreamRow (kept ++ e.now ∷ []) streams.new }
{
    if let Some((w, s)) = stream_key(e) {
        let row = streams.row(w, s);
        streams.put(w, s, row.after(s, &e.body));
    }
}
