//! Nodes that stand still have done their work.
ghost use Rattle.std.specs.Prelude.{◌≡◌, ◌<◌, ℕ, IsTrue, None};
ghost use Rattle.composer_parser.specs.declared.Defs.{Defs};
ghost use Rattle.model.specs.Network.{IsTree, node_count};
ghost use Rattle.model.specs.World.{World};
ghost use Rattle.workload_defs.specs.Nets.{net_of};
ghost use Rattle.agent_core.specs.Nodes.{NodeState};
ghost use Rattle.network_world.specs.Standing.{NodeStandsFor};
ghost use Rattle.network_runs.specs.Happenings.{Night, kept_at, since};
ghost use Rattle.network_runs.specs.Nights.{IsBegun, IsWorldOf};
ghost use Rattle.nights_at_rest.specs.Still.{Nodes, NodesStandFor, RestsIn, StandStill, have_short_answers};

/// In the world of a night, where the nodes of all workstations stand for it, each with its own ends of its links up, and a
/// whole pass of each is still, the network has come to rest: its work is done, and each disk has what its workstation
/// wants. A node that has just begun stands for the world of its night.
pub fn still_nodes_are_at_rest()
    ensures rest { (defs : Defs) (night : Night) (x : World) (reads : ℕ → ℕ) (nodes : Nodes) → IsTree (net_of defs)
        → IsWorldOf defs night x → IsTrue (have_short_answers defs night) → NodesStandFor defs nodes x
        → StandStill defs reads nodes → RestsIn defs reads night x }
    ensures begun { (defs : Defs) (night : Night) (x : World) (w : ℕ) (node : NodeState) → IsWorldOf defs night x
        → w < node_count (net_of defs) → since w night ≡ None → IsBegun (net_of defs) w (kept_at w night) node
        → NodeStandsFor (net_of defs) x w node }
{}
