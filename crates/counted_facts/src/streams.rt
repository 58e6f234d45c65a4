//! The timelines of streams.
ghost use Rattle.std.specs.Prelude.{◌≡◌, ◌+◌, ◌++◌, ◌∷◌, ℕ, [], List, OnOk, length};
ghost use Rattle.model.specs.Types.{Entry as Taken, Events};
ghost use Rattle.model.specs.History.{list_of};
ghost use Rattle.counted_facts.specs.Facts as spec;
ghost use Rattle.counted_facts.specs.Timelines.{AreTimelines};

use crate::subjects::stream_key;
use crate::timelines::Timelines;
use base_types::{Entry, NoMemory, Obj, StreamNo, Ws};
use owner_rows::Kept;

/// What a workstation tells of a stream.
#[derive(Clone, Copy)]
pub(crate) struct StreamTold {
    pub(crate) released: bool,
    pub(crate) ended: bool,
    pub(crate) cancelled: bool,
    /// The limit that was set last.
    pub(crate) limit: Option<u16>,
}

impl StreamTold {
    /// That of no events.
    pub(crate) fn blank() -> StreamTold
        ensures { (s : ℕ) → result ≡ spec.stream_told s [] }
    {
        StreamTold {
            released: false,
            ended: false,
            cancelled: false,
            limit: None,
        }
    }
}

/// What w tells of a stream.
fn stream_told(kept: &Kept, w: u16, s: u32) -> StreamTold
    ensures { result ≡ spec.stream_told s (list_of kept.now (Events w)) }
{
    let o = Obj::Stream(StreamNo(s));
    StreamTold {
        released: kept.is_released_at(Ws(w), StreamNo(s)),
        ended: kept.is_ended_at(Ws(w), StreamNo(s)),
        cancelled: kept.is_cancelled_at(Ws(w), &o),
        limit: kept.stream_limit_set_at(Ws(w), StreamNo(s)),
    }
}

/// Tells the timelines an entry that was taken just before.
pub(crate) fn tell_stream(
    streams: &mut Timelines<StreamTold>,
    kept: &Kept,
    e: &Entry,
) -> Result<(), NoMemory>
    ensures { OnOk result ((before : List Taken) → kept.now ≡ before ++ e.now ∷ []
        → e.now.place ≡ length (list_of before e.now.feed) + 1 → AreTimelines spec.stream_told before streams.old
        → AreTimelines spec.stream_told kept.now streams.new) }
{
    match stream_key(e) {
        None => Ok(()),
        Some((w, s)) => streams.tell(w, u64::from(s), e.place, stream_told(kept, w, s)),
    }
}
