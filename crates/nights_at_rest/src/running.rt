//! Rounds of running nodes.
ghost use Rattle.std.specs.Prelude.{◌≤◌, ◌+◌, ◌++◌, ◌∷◌, [], ℕ, IsTrue, List};
ghost use Rattle.composer_parser.specs.declared.Defs.{Defs};
ghost use Rattle.model.specs.Network.{IsTree, node_count};
ghost use Rattle.model.specs.World.{World};
ghost use Rattle.workload_defs.specs.Nets.{net_of};
ghost use Rattle.rest_laws.specs.Gains.{gained};
ghost use Rattle.rest_laws.specs.Left.{bound_of};
ghost use Rattle.network_runs.specs.Happenings.{Night};
ghost use Rattle.network_runs.specs.Nights.{IsNight, IsWorldOf};
ghost use Rattle.nights_at_rest.specs.NodeRounds.{AreNodeRounds, AreNodesLinked, IsNodeRound, NodesRestBut};
ghost use Rattle.nights_at_rest.specs.Passes.{ArePasses, HaveBegun, Pass, StandBetween, happened};
ghost use Rattle.nights_at_rest.specs.Still.{Nodes, StandStill, have_short_answers};

/// A network of running nodes comes to rest. From some moment on both ends are up of every link between neighbours, each
/// node makes whole passes of its loop, what is sent comes, nothing comes from outside, no process starts or ends, and
/// the clocks stand. Then of the rounds that follow, however many, all but at most so many begin at rest, with nothing
/// left undone; the world at that moment decides that number. Such a moment comes after whatever whole passes of nodes
/// that begin together, each with all that its disk has. Nodes at rest go on in such rounds.
pub fn running_nodes_come_to_rest()
    ensures rest { (defs : Defs) (reads : ℕ → ℕ) (k n : ℕ) (night : Night) (old new : Nodes) (x : World)
        → IsTree (net_of defs) → node_count (net_of defs) ≤ 65536 → StandBetween defs night old x → IsTrue (have_short_answers defs night)
        → bound_of (net_of defs) (λ w. reads w ∷ []) x ≤ gained (net_of defs) x + n
        → (rounds : AreNodeRounds defs reads k night old new) → NodesRestBut n defs reads k night old new rounds }
    ensures begun { (defs : Defs) (night : Night) (nodes : Nodes) (x : World) → IsNight defs night
        → IsWorldOf defs night x → HaveBegun defs night nodes → StandBetween defs night nodes x }
    ensures passes { (defs : Defs) (night : Night) (ps : List Pass) (old new : Nodes) (x : World) → IsTree (net_of defs)
        → node_count (net_of defs) ≤ 65536 → StandBetween defs night old x → ArePasses defs night ps old new
        → (y : World) × StandBetween defs (night ++ happened ps) new y }
    ensures still { (defs : Defs) (reads : ℕ → ℕ) (night : Night) (nodes : Nodes) → StandStill defs reads nodes
        → AreNodesLinked defs nodes → (new : Nodes) × IsNodeRound defs reads night nodes new }
{}
