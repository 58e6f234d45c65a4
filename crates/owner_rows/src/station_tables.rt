//! The tables of workstations: counts, answers, totals, plans, replies, and what each tells of itself.
ghost use Rattle.std.specs.Prelude.{◌≡◌, ◌+◌, ◌<◌, ◌^◌, ◌++◌, [], ◌∷◌, List, Option, OnOk, length};
ghost use Rattle.model.specs.Types.{Entry as Taken};
ghost use Rattle.model.specs.History.{list_of};
ghost use Rattle.owner_rows.specs.Counts as count;
ghost use Rattle.owner_rows.specs.Replies.{reply_while};
ghost use Rattle.owner_rows.specs.Told.{AreStationsReady, AreStationsTold};
ghost use Rattle.owner_rows.specs.Tables.{row_in};

use crate::answers::tell_answer;
use crate::counts::{feed_key, tell_count};
use crate::replies::{reply_while, tell_plan, tell_reply};
use crate::stations::{StationRow, tell_station};
use crate::subjects::{issuer_key, plan_key, prompt_key, resource_key, station_key};
use crate::tables::Table;
use crate::totals::tell_total;
use base_types::{Entry, Feed, NoMemory, Ws};
use std::alloc::Global;

/// What the entries tell of workstations.
pub(crate) struct StationTables {
    /// By workstation and issuer: how many entries each feed has.
    pub(crate) counts: Table<u32>,
    pub(crate) stations: Table<StationRow>,
    /// By workstation and issuer.
    pub(crate) answers: Table<u32>,
    /// By workstation and resource.
    pub(crate) totals: Table<Option<u16>>,
    /// How many plans each workstation made.
    pub(crate) plans: Table<u32>,
    /// By workstation and prompt: the last reply, with the count of the plans before it.
    pub(crate) replies: Table<Option<(u32, bool)>>,
}

/// Written out, so that dropping one is a call for whoever owns it.
impl Drop for StationTables {
    fn drop(self) {
        let StationTables {
            counts: _counts,
            stations: _stations,
            answers: _answers,
            totals: _totals,
            plans: _plans,
            replies: _replies,
        } = self;
    }
}

impl StationTables {
    /// The tables of no entries, which takes no memory yet.
    pub(crate) fn new(alloc: Global) -> StationTables
        ensures { AreStationsTold [] result }
    {
        StationTables {
            counts: Table::new(alloc, 0),
            stations: Table::new(alloc, StationRow::blank()),
            answers: Table::new(alloc, 0),
            totals: Table::new(alloc, None),
            plans: Table::new(alloc, 0),
            replies: Table::new(alloc, None),
        }
    }

    /// The count of a feed.
    pub(crate) fn count(&self, f: &Feed) -> u32
        ensures { result ≡ row_in self.now.counts (count.feed_key f.now) }
    {
        let (w, n) = feed_key(f);
        self.counts.row(w, n)
    }

    /// The row of w itself.
    pub(crate) fn station(&self, w: Ws) -> StationRow
        ensures { result ≡ row_in self.now.stations (w, 0) }
    {
        self.stations.row(w.0, 0)
    }

    /// How many orders of an issuer w answered.
    pub(crate) fn answered(&self, w: Ws, a: Ws) -> u32
        ensures { result ≡ row_in self.now.answers (w, a) }
    {
        self.answers.row(w.0, u64::from(a.0))
    }

    /// The total of a resource in the events of w.
    pub(crate) fn total(&self, w: Ws, r: u16) -> Option<u16>
        ensures { result ≡ row_in self.now.totals (w, r) }
    {
        self.totals.row(w.0, u64::from(r))
    }

    /// The last reply to a prompt of the network since the last plan of w.
    pub(crate) fn reply(&self, w: Ws, prompt: u16) -> Option<bool>
        ensures { result ≡ reply_while (row_in self.now.plans (w, 0)) (row_in self.now.replies (w, prompt)) }
    {
        let row = self.replies.row(w.0, u64::from(prompt));
        reply_while(row, self.plans.row(w.0, 0))
    }

    /// Takes the memory for an entry, and changes nothing of what is told.
    pub(crate) fn prepare(&mut self, e: &Entry) -> Result<(), NoMemory>
        ensures same { (kept : List Taken) → AreStationsTold kept self.old → AreStationsTold kept self.new }
        ensures ready { OnOk result (AreStationsReady self.new e.now) }
    {
        self.counts.prepare(Some(feed_key(&e.feed)))?;
        self.stations.prepare(station_key(e))?;
        self.answers.prepare(issuer_key(e))?;
        self.totals.prepare(resource_key(e))?;
        self.plans.prepare(plan_key(e))?;
        self.replies.prepare(prompt_key(e))?;
        Ok(())
    }

    /// Tells the tables an entry for which the memory is there.
    pub(crate) fn tell(&mut self, e: &Entry)
        requires { AreStationsReady self.old e.now }
        ensures { (kept : List Taken) → length (list_of kept e.now.feed) + 1 < 2 ^ 32 → AreStationsTold kept self.old
            → AreStationsTold (kept ++ e.now ∷ []) self.new }
    {
        tell_count(&mut self.counts, e);
        tell_station(&mut self.stations, e);
        tell_answer(&mut self.answers, e);
        tell_total(&mut self.totals, e);
        tell_reply(&mut self.replies, &self.plans, e);
        tell_plan(&mut self.plans, e);
    }
}
