//! The entries of the feeds, and the packets that carry them.
use crate::commands::{Cmd, Why};
use crate::documents::{Obj, OnUntil, SharedDocs, StreamDoc, StreamNos};
use crate::lists::Items;
use crate::numbers::{JobNo, Moment, StreamNo, Ws};
use crate::sightings::Seen;

pub type Entries = Items<Entry>;

/// A list of entries that one workstation makes.
#[derive(Clone, Copy, Debug, PartialEq, Eq, PartialOrd, Ord)]
pub enum Feed {
    /// What the workstation decided or saw.
    Events(Ws),
    /// The commands typed at the first workstation for the second.
    Orders(Ws, Ws),
}

/// What an entry says. The number of a launch counts from 1 for each job.
pub enum Body {
    /// The run, what the master knew, the carried streams and the fresh ones.
    NewPlan(u32, Seen, StreamNos, SharedDocs),
    /// The issuer and the place of the order that submitted this stream.
    Added(Ws, u32, StreamDoc),
    Clock(Moment),
    Released(StreamNo, Seen),
    StreamEnded(StreamNo, Seen),
    /// The UNTIL of this number, from 1, has passed.
    UntilPassed(Obj, u16, OnUntil),
    /// A job, the number of its launch, and what the launch stands on.
    Launched(JobNo, u32, Seen),
    Started(JobNo, u32),
    /// The launch could not be started.
    Failed(JobNo, u32),
    /// The return code, and whether it meets the job's condition.
    Ended(JobNo, u32, i32, bool),
    /// The workstation stopped while the launch was open.
    Lost(JobNo, u32),
    /// The file of the dependency of this number, from 1, was seen.
    Fulfilled(Obj, u16),
    /// The issuer and the place of the order, and its command.
    Obeyed(Ws, u32, Cmd),
    /// The issuer and the place of the order, and why not.
    Declined(Ws, u32, Why),
    Order(Cmd),
    /// The DEADLINE of this number, from 1, has passed before its object was done.
    Late(Obj, u16),
}

impl Drop for Body {
    fn drop(self) {
        match self {
            Body::NewPlan(_a, _b, _c, _d) => {}
            Body::Added(_a, _b, _c) => {}
            Body::Clock(_a) => {}
            Body::Released(_a, _b) => {}
            Body::StreamEnded(_a, _b) => {}
            Body::UntilPassed(_a, _b, _c) => {}
            Body::Launched(_a, _b, _c) => {}
            Body::Started(_a, _b) => {}
            Body::Failed(_a, _b) => {}
            Body::Ended(_a, _b, _c, _d) => {}
            Body::Lost(_a, _b) => {}
            Body::Fulfilled(_a, _b) => {}
            Body::Obeyed(_a, _b, _c) => {}
            Body::Declined(_a, _b, _c) => {}
            Body::Order(_a) => {}
            Body::Late(_a, _b) => {}
        }
    }
}

/// An entry of a feed.
pub struct Entry {
    pub feed: Feed,
    /// From 1, in its feed.
    pub place: u32,
    pub body: Body,
}

impl Drop for Entry {
    fn drop(self) {
        let Entry {
            feed: _feed,
            place: _place,
            body: _body,
        } = self;
    }
}

/// What one workstation sends to its neighbour.
#[derive(Clone, Copy, PartialEq)]
pub enum Packet {
    /// The entry of this feed and place.
    Mail(Feed, u32),
    /// The sender holds so many entries of the feed.
    Ack(Feed, u32),
}
