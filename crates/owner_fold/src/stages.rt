//! The streams of a workstation that wait for their release, and those that are under way.
ghost use Rattle.std.specs.Prelude.{◌≡◌, filter};
ghost use Rattle.std.specs.Iterator.{YieldsFirstRef, item_count};
ghost use Rattle.model.specs.Types.{Events, StreamDoc as Doc};
ghost use Rattle.model.specs.History.{list_of, view_of};
ghost use Rattle.model.specs.Catalogue.{streams_of};
ghost use Rattle.owner_fold.specs.Holders.{is_under_way, streams_under_way};
ghost use Rattle.owner_fold.specs.Sets.{is_waiting, is_waiting_here, streams_waiting};
ghost use Rattle.owner_fold.specs.Stages.{begun_left, waiting_left};

use crate::holdings::Owners;
use crate::searches::{StreamTest, next_stream};
use crate::sets::{is_begun, is_waiting};
use base_types::{StreamDoc, Ws};

/// The streams of a workstation that are neither released nor cancelled, in the order of the catalogue.
#[derive(Drop)]
pub struct WaitingStreams<'a> {
    pub(crate) owners: &'a Owners,
    pub(crate) codes: &'a [u64],
    pub(crate) ws: Ws,
}

/// The streams of a workstation that are released, and neither ended nor cancelled, in the order of the catalogue.
#[derive(Drop)]
pub struct BegunStreams<'a> {
    pub(crate) owners: &'a Owners,
    pub(crate) codes: &'a [u64],
    pub(crate) ws: Ws,
}

/// The stream is one of w, and waits.
pub(crate) fn is_waiting_at(owners: &Owners, w: Ws, doc: &StreamDoc) -> bool
    ensures { result ≡ is_waiting_here w (list_of owners.now (Events w)) doc.now }
{
    doc.ws.0 == w.0 && is_waiting(owners.kept(), w, doc.no)
}

/// The stream is one of w, and is under way.
pub(crate) fn is_under_way_at(owners: &Owners, w: Ws, doc: &StreamDoc) -> bool
    ensures { result ≡ is_under_way w (list_of owners.now (Events w)) doc.now }
{
    doc.ws.0 == w.0 && is_begun(owners.kept(), w, doc.no)
}

impl<'a> Iterator for WaitingStreams<'a> {
    type Item = &'a StreamDoc;

    ghost next_gives = { YieldsFirstRef waiting_left };

    ghost remaining = { item_count waiting_left };

    #[tactic(auto, unfolding(crate::specs::Stages::waiting_left))]
    fn next(&mut self) -> Option<&'a StreamDoc> {
        let (found, rest) = next_stream(StreamTest::Waits, self.owners, self.ws, self.codes);
        self.codes = rest;
        found
    }
}

impl<'a> Iterator for BegunStreams<'a> {
    type Item = &'a StreamDoc;

    ghost next_gives = { YieldsFirstRef begun_left };

    ghost remaining = { item_count begun_left };

    #[tactic(auto, unfolding(crate::specs::Stages::begun_left))]
    fn next(&mut self) -> Option<&'a StreamDoc> {
        let (found, rest) = next_stream(StreamTest::Begun, self.owners, self.ws, self.codes);
        self.codes = rest;
        found
    }
}

impl Owners {
    /// The streams of w that are neither released nor cancelled, in the order of the catalogue.
    #[tactic(auto, unfolding(crate::specs::Stages::waiting_left))]
    pub fn streams_waiting(&self, w: Ws) -> WaitingStreams<'_>
        ensures { waiting_left result ≡
            filter (λ (d : Doc). is_waiting d.no (list_of self.now (Events w))) (streams_of (view_of self.now) w) }
    {
        WaitingStreams {
            owners: self,
            codes: self.waiting_codes(w),
            ws: w,
        }
    }

    /// The streams of w that are released, and neither ended nor cancelled, in the order of the catalogue.
    #[tactic(auto, unfolding(crate::specs::Stages::begun_left))]
    pub fn streams_under_way(&self, w: Ws) -> BegunStreams<'_>
        ensures { begun_left result ≡ streams_under_way (view_of self.now) w }
    {
        BegunStreams {
            owners: self,
            codes: self.begun_codes(w),
            ws: w,
        }
    }
}
