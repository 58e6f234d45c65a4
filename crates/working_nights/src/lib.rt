//! Worlds of the program and nights of running nodes come to rest while processes start and end, and files are found.
//!
//! The laws of `launches_at_rest` speak of worlds of the definitions, those of `nights_at_rest` of rounds in which no process
//! starts or ends. Here both are met: in rounds of the program's world, and in rounds of running nodes, processes start and
//! end, files are found, and nodes give themselves the orders that the recoveries of their jobs advise. What stays out is an
//! order or a new plan that a person types, a stop, and a link that breaks.
#![tactic(auto)]

ghost use Rattle.std.specs.Prelude.{◌≤◌, ◌+◌, ◌∷◌, [], ℕ, Bool, IsTrue, List, false, true};
ghost use Rattle.composer_parser.specs.declared.Defs.{Defs};
ghost use Rattle.model.specs.Network.{IsTree, node_count};
ghost use Rattle.model.specs.World.{World};
ghost use Rattle.workload_defs.specs.Nets.{net_of};
ghost use Rattle.rest_laws.specs.Gains.{gained};
ghost use Rattle.network_world.specs.Standing.{StandsFor};
ghost use Rattle.network_world.specs.Stations.{WorldState};
ghost use Rattle.network_runs.specs.Happenings.{Night};
ghost use Rattle.nights_at_rest.specs.NodeRounds.{IsNodeRound};
ghost use Rattle.nights_at_rest.specs.Passes.{StandBetween};
ghost use Rattle.nights_at_rest.specs.Still.{Nodes, have_short_answers};
ghost use Rattle.nights_at_rest.specs.Worlds.{IsWorldRound};
ghost use Rattle.launches_at_rest.specs.Tells.{work_bound};
ghost use Rattle.advice_at_rest.specs.Advised.{advised_bound};
ghost use Rattle.working_nights.specs.Passes.{AreNodeWorks, IsNodeWork, NodesWorkBut};
ghost use Rattle.working_nights.specs.Worlds.{AreWorldWorks, IsWorldWork, WorksRestBut};

/// The world of the program comes to rest while things are told: of whatever rounds it takes, of turns, deliveries, starts,
/// ends and files, all but at most so many begin at rest, with the work done, and the world at the start decides that number.
/// Rounds in which nothing is told are among them.
pub fn working_worlds_come_to_rest()
    ensures rest { (reads : ℕ → ℕ) (k n : ℕ) (s t : WorldState) (x : World) → IsTree s.net → StandsFor s x
        → work_bound s.net (λ w. reads w ∷ []) x ≤ gained s.net x + n → (rounds : AreWorldWorks reads k s t)
        → WorksRestBut n reads k s t rounds }
    ensures untold { (reads : ℕ → ℕ) (s t : WorldState) → IsWorldRound reads s t → IsWorldWork reads s t }
{}

/// A network of running nodes comes to rest while their processes start and end. From some moment on both ends are up of
/// every link between neighbours, each node makes whole passes of its loop, what is sent comes, nobody makes a plan or types
/// an order, and the clocks stand. Orders of the night have answers that an entry can hold. Then of
/// the rounds that follow, however many, all but at most so many begin at rest, with nothing left undone, on disks too; the
/// world at that moment decides that number: where no node gives itself an order, and where nodes give themselves what the
/// recoveries of their jobs advise, which is bounded too. Rounds in which nothing is told are among them.
pub fn working_nodes_come_to_rest()
    ensures rest { (defs : Defs) (reads : ℕ → ℕ) (k n : ℕ) (night : Night) (old new : Nodes) (x : World)
        → IsTree (net_of defs) → node_count (net_of defs) ≤ 65536 → StandBetween defs night old x
        → IsTrue (have_short_answers defs night)
        → work_bound (net_of defs) (λ w. reads w ∷ []) x ≤ gained (net_of defs) x + n
        → (rounds : AreNodeWorks false defs reads k night old new) → NodesWorkBut n false defs reads k night old new rounds }
    ensures advised { (defs : Defs) (reads : ℕ → ℕ) (k n : ℕ) (night : Night) (old new : Nodes) (x : World)
        → IsTree (net_of defs) → node_count (net_of defs) ≤ 65536 → StandBetween defs night old x
        → IsTrue (have_short_answers defs night)
        → advised_bound (net_of defs) (λ w. reads w ∷ []) x ≤ gained (net_of defs) x + n
        → (rounds : AreNodeWorks true defs reads k night old new) → NodesWorkBut n true defs reads k night old new rounds }
    ensures untold { (advises : Bool) (defs : Defs) (reads : ℕ → ℕ) (night : Night) (old new : Nodes)
        → IsNodeRound defs reads night old new → IsNodeWork advises defs reads night old new }
{}
