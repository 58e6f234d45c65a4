//! The rows of workstations: the clock, the fence, the limit of open launches, whether they are stopped, and the
//! run of the last plan.
ghost use Rattle.std.specs.Prelude.{◌≡◌, ◌+◌, ◌<◌, ◌^◌, ◌++◌, [], ◌∷◌, List, ℕ, IfSome, IsSome, length};
ghost use Rattle.model.specs.Types.{Body as Told, Entry as Taken};
ghost use Rattle.model.specs.History.{list_of};
ghost use Rattle.owner_rows.specs.Stations.{IsStationRow, station_with};
ghost use Rattle.owner_rows.specs.Subjects.{key_in, station_in};
ghost use Rattle.owner_rows.specs.Tables.{AreRows, has_row};

use crate::subjects::station_key;
use crate::tables::Table;
use base_types::{Body, Cmd, Entry};

/// What the events of a workstation tell of itself.
#[derive(Clone, Copy)]
pub(crate) struct StationRow {
    /// The greatest clock, in seconds since 1970.
    pub(crate) clock: u64,
    pub(crate) fence: u8,
    pub(crate) limit: u16,
    pub(crate) stopped: bool,
    /// The run of the last plan, 0 before the first.
    pub(crate) run: u32,
}

impl StationRow {
    /// The row of no events.
    pub(crate) fn blank() -> StationRow
        ensures { (n : ℕ) → IsStationRow [] n result }
    {
        StationRow {
            clock: 0,
            fence: 0,
            limit: 10,
            stopped: false,
            run: 0,
        }
    }

    /// The row after one more body.
    fn after(&self, body: &Body) -> StationRow
        ensures { result ≡ station_with body.now self.now }
    {
        let mut row = *self;
        match body {
            Body::Clock(t) => row.clock = self.clock.max(t.0),
            Body::Obeyed(_, _, Cmd::Fence(p)) => row.fence = *p,
            Body::Obeyed(_, _, Cmd::Limit(n)) => row.limit = *n,
            Body::Obeyed(_, _, Cmd::Start) => row.stopped = false,
            Body::Obeyed(_, _, Cmd::Stop) => row.stopped = true,
            Body::NewPlan(number, _, _, _) => row.run = *number,
            _ => (),
        }
        row
    }
}

/// The rows of workstations after one more entry, for whose row the memory is there.
pub(crate) fn tell_station(stations: &mut Table<StationRow>, e: &Entry)
    requires { IfSome (key_in station_in e.now) (λ k. IsSome (has_row stations.old k)) }
    ensures { (kept : List Taken) → length (list_of kept e.now.feed) + 1 < 2 ^ 32
        → AreRows IsStationRow kept stations.old → AreRows IsStationRow (kept ++ e.now ∷ []) stations.new }
{
    if let Some((w, n)) = station_key(e) {
        let row = stations.row(w, n);
        stations.put(w, n, row.after(&e.body));
    }
}
