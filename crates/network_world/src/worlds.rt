//! The world, and what it shows.
ghost use Rattle.std.specs.Prelude.{◌≡◌, ◌<◌, ◌≤◌, IfOk, Some, length, option_map};
ghost use Rattle.std.specs.Option.{option_copied};
ghost use Rattle.model.specs.Network.{node_count};
ghost use Rattle.model.specs.Sound.{IsSound};
ghost use Rattle.model.specs.World as model;
ghost use Rattle.model.specs.World.{empty_world};
ghost use Rattle.network_world.specs.Lanes as spec;
ghost use Rattle.network_world.specs.Moves.{AreNew};
ghost use Rattle.network_world.specs.Stations.{Station as Seen, lane_of, station_of};
ghost use Rattle.network_world.specs.Standing.{IsWorld, NodeStandsFor, StandsFor};

use crate::journals::Journal;
use crate::lanes::Lane;
use crate::laws::counts_are_small;
use crate::stations::Station;
use agent_core::Agent;
use base_types::{Entry, Items, NoMemory, Start, Ws};
use model_laws::bounds::worlds_make_few_entries;
use model_laws::every_history_is_sound;
use network_tree::Network;
use std::alloc::Global;
use std::marker::Model;

/// All nodes of a network, and the packets between them.
pub struct World {
    pub(crate) alloc: Global,
    pub(crate) net: Network,
    pub(crate) stations: Items<Station>,
    pub(crate) journal: Journal,
}

impl Model for World {
    ghost use Rattle.network_world.specs.Journals.{seen};
    ghost use Rattle.network_world.specs.Stations.{WorldState};
    ghost use Rattle.network_world.specs.Standing.{IsWorld};

    ghost Value = { WorldState };

    ghost view = { λ a. record { net = a.net; stations = a.stations; journal = seen a.journal } };

    ghost invariant = { λ a. IsWorld (record { net = a.net; stations = a.stations; journal = seen a.journal }) };
}

/// Written out, so that dropping one is a call for whoever owns it.
impl Drop for World {
    fn drop(self) {
        let World {
            alloc: _alloc,
            net: _net,
            stations: _stations,
            journal: _journal,
        } = self;
    }
}

/// The stations of a network before anything has happened.
fn new_stations(alloc: Global, net: &Network) -> Result<Items<Station>, NoMemory>
    ensures { IfOk result (λ stations. AreNew net.now stations) }
{
    let mut stations = Items::new(alloc);
    for w in 0..net.count() {
        stations.push(Station::new(alloc, net, Ws(w))?)?;
    }
    Ok(stations)
}

impl World {
    /// The world of a network in which nothing has happened yet. `NoMemory` where memory runs out.
    pub fn new(alloc: Global, net: Network) -> Result<World, NoMemory>
        ensures net { IfOk result (λ w. w.net ≡ net) }
        ensures empty { IfOk result (λ w. StandsFor w empty_world) }
    {
        let stations = new_stations(alloc, &net)?;
        let journal = Journal::new(alloc);
        Ok(World {
            alloc,
            net,
            stations,
            journal,
        })
    }

    /// The network, as it was defined.
    pub fn net(&self) -> &Network
        ensures { result.now ≡ self.now.net }
    {
        &self.net
    }

    /// The entries that were made, in order.
    pub fn history(&self) -> &[Entry]
        ensures { result.now ≡ self.now.journal.history }
    {
        self.journal.history.as_slice()
    }

    /// The launches that were started, in order.
    pub fn starts(&self) -> &[Start]
        ensures { result.now ≡ self.now.journal.starts }
    {
        self.journal.starts.as_slice()
    }

    /// That there is a world of the definitions for which this one stands, and that it has few workstations.
    pub(crate) fn stands(&self)
        ensures world { IsWorld self.now }
        ensures few { node_count self.now.net ≤ 256 }
    {
        // A network has at most 256 workstations.
        let _count = self.net.count();
    }

    /// The history and the starts of this very world are sound, whatever steps made it. The call does nothing.
    pub fn is_sound(&self)
        ensures { IsSound self.now.net self.now.journal.history self.now.journal.starts }
    {
        self.stands();
        every_history_is_sound();
    }

    /// At most 200,000 entries were made, and no more launches started, whatever steps made them. The call does nothing.
    pub fn is_short(&self)
        ensures entries { length self.now.journal.history ≤ 200000 }
        ensures starts { length self.now.journal.starts ≤ 200000 }
    {
        self.stands();
        worlds_make_few_entries();
    }

    /// What one workstation sent to another. None where one of them is outside.
    pub(crate) fn lane(&self, from: Ws, to: Ws) -> Option<&Lane>
        ensures { option_map spec.seen (option_copied result) ≡ lane_of self.now from to }
    {
        match self.stations.get(usize::from(from.0)) {
            Some(station) => station.lane(to),
            None => None,
        }
    }

    /// How many packets one workstation sent to another. They are numbered from 1.
    pub fn packets(&self, from: Ws, to: Ws) -> u32
        requires from { from < node_count self.now.net }
        requires to { to < node_count self.now.net }
        ensures { (x : model.World) → StandsFor self.now x → result ≡ length (x.packets from to) }
    {
        self.stands();
        counts_are_small();
        match self.lane(from, to) {
            Some(lane) => lane.count(),
            None => 0,
        }
    }

    /// The greatest number of the packets from one workstation to another that were delivered, 0 where none was.
    pub fn reached(&self, from: Ws, to: Ws) -> u32
        requires from { from < node_count self.now.net }
        requires to { to < node_count self.now.net }
        ensures { (x : model.World) → StandsFor self.now x → result ≡ x.reached from to }
    {
        self.stands();
        match self.lane(from, to) {
            Some(lane) => lane.reached,
            None => 0,
        }
    }

    /// The node of a workstation: it holds what the workstation holds, with its session.
    pub fn node(&self, w: Ws) -> &Agent
        requires { w < node_count self.now.net }
        ensures value { option_map (λ (t : Seen). t.node) (station_of self.now w) ≡ Some result.now }
        ensures stands { (x : model.World) → StandsFor self.now x → NodeStandsFor self.now.net x w result.now }
    {
        self.stands();
        let stations = self.stations.as_slice();
        let i = usize::from(w.0);
        let station = &stations[i];
        &station.node
    }
}
