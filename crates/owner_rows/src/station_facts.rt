//! What each workstation tells of itself.
ghost use Rattle.std.specs.Prelude.{◌≡◌, ℕ, unwrap_or};
ghost use Rattle.model.specs.Types.{Events};
ghost use Rattle.model.specs.History.{list_of};
ghost use Rattle.model.specs.Facts.{answered, fence, global_reply, is_stopped, limit, now, total};
ghost use Rattle.model.specs.NewPlan.{last_run};
ghost use Rattle.owner_rows.specs.Stations.{TellsStation};

use crate::kept::Kept;
use crate::stations::StationRow;
use base_types::{Moment, Ws};

impl Kept {
    /// The row of w.
    fn station_at(&self, w: Ws) -> StationRow
        ensures { TellsStation (list_of self.now (Events w)) result }
    {
        self.told.stations.station(w)
    }

    /// How many orders of the issuer a the events of w answer.
    pub fn answered(&self, w: Ws, a: Ws) -> u32
        ensures { result ≡ answered a (list_of self.now (Events w)) }
    {
        self.told.stations.answered(w, a)
    }

    /// The run of the last plan in the events of w, 0 before the first.
    pub fn run_at(&self, w: Ws) -> u32
        ensures { result ≡ last_run (list_of self.now (Events w)) }
    {
        self.station_at(w).run
    }

    /// The greatest clock of w, in seconds since 1970, UTC. 0 without one.
    pub fn now(&self, w: Ws) -> Moment
        ensures { result ≡ now (list_of self.now (Events w)) }
    {
        Moment(self.station_at(w).clock)
    }

    /// The fence of w, 0 unless it was set.
    pub fn fence(&self, w: Ws) -> u8
        ensures { result ≡ fence (list_of self.now (Events w)) }
    {
        self.station_at(w).fence
    }

    /// How many launches may be open at w, 10 unless it was set.
    pub fn limit(&self, w: Ws) -> u16
        ensures { result ≡ limit (list_of self.now (Events w)) }
    {
        self.station_at(w).limit
    }

    /// Whether the last start or stop of w is a stop.
    pub fn is_stopped(&self, w: Ws) -> bool
        ensures { result ≡ is_stopped (list_of self.now (Events w)) }
    {
        self.station_at(w).stopped
    }

    /// The total of a resource that was set last at w, in units. None where it is as defined.
    pub fn total_set(&self, w: Ws, resource: u16) -> Option<u16>
        ensures { (defined : ℕ) →
            unwrap_or result defined ≡ total resource defined (list_of self.now (Events w)) }
    {
        self.told.stations.total(w, resource)
    }

    /// The last reply to a prompt of the network since the last plan, if there is one.
    pub fn global_reply(&self, prompt: u16) -> Option<bool>
        ensures { result ≡ global_reply prompt (list_of self.now (Events 0)) }
    {
        self.told.stations.reply(Ws(0), prompt)
    }
}
