//! All running tables.
ghost use Rattle.std.specs.Prelude.{◌≡◌, ◌+◌, ◌<◌, ◌^◌, ◌++◌, [], ◌∷◌, List, OnOk, length};
ghost use Rattle.model.specs.Types.{Entry as Taken};
ghost use Rattle.model.specs.History.{list_of};
ghost use Rattle.owner_rows.specs.Standing.{addition_in};
ghost use Rattle.owner_rows.specs.Told.{AreReady, AreTold};

use crate::places::added_to;
use crate::station_tables::StationTables;
use crate::subjects::object_number;
use crate::work_tables::WorkTables;
use base_types::{Entry, Feed, NoMemory};
use std::alloc::Global;

/// What the entries tell, in tables by workstation and number.
pub(crate) struct Told {
    pub(crate) work: WorkTables,
    pub(crate) stations: StationTables,
}

/// Written out, so that dropping one is a call for whoever owns it.
impl Drop for Told {
    fn drop(self) {
        let Told {
            work: _work,
            stations: _stations,
        } = self;
    }
}

impl Told {
    /// The tables of no entries, which takes no memory yet.
    pub(crate) fn new(alloc: Global) -> Told
        ensures { AreTold [] result }
    {
        Told {
            work: WorkTables::new(alloc),
            stations: StationTables::new(alloc),
        }
    }

    /// The key of the dependency that an entry adds, before the entry is told.
    pub(crate) fn addition_key(&self, e: &Entry) -> Option<(u16, (u64, u32))>
        ensures { (kept : List Taken) → AreTold kept self.now → result ≡ addition_in kept e.now }
    {
        match &e.feed {
            Feed::Orders(_, _) => None,
            Feed::Events(w) => match added_to(&e.body) {
                None => None,
                Some(o) => {
                    let n = object_number(o);
                    let row = self.work.objects.row(w.0, n);
                    Some((w.0, (n, row.added)))
                }
            },
        }
    }

    /// Takes the memory for an entry, and changes nothing of what is told.
    pub(crate) fn prepare(&mut self, e: &Entry) -> Result<(), NoMemory>
        ensures same { (kept : List Taken) → AreTold kept self.old → AreTold kept self.new }
        ensures ready { OnOk result (AreReady self.new e.now) }
    {
        self.work.prepare(e)?;
        self.stations.prepare(e)?;
        Ok(())
    }

    /// Tells the tables an entry for which the memory is there.
    pub(crate) fn tell(&mut self, e: &Entry)
        requires { AreReady self.old e.now }
        ensures { (kept : List Taken) → length (list_of kept e.now.feed) + 1 < 2 ^ 32 → AreTold kept self.old
            → AreTold (kept ++ e.now ∷ []) self.new }
    {
        self.work.tell(e);
        self.stations.tell(e);
    }
}
