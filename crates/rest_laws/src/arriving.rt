//! That a network comes to rest: there is always one more round where turns have room, and rounds come to rest.
ghost use Rattle.std.specs.List.{AllByRecursion};
ghost use Rattle.std.specs.Prelude.{◌<◌, ◌≤◌, ◌+◌, ℕ, IsTrue, List};
ghost use Rattle.model.specs.Types.{Cmd, Net, WorldStep};
ghost use Rattle.model.specs.Fit.{IsFitCmd};
ghost use Rattle.model.specs.Network.{IsTree, node_count};
ghost use Rattle.model.specs.World.{World, empty_world, run};
ghost use Rattle.model.specs.FreeSteps.{free_run};
ghost use Rattle.model.specs.Invariant.{Invariant};
ghost use Rattle.rest_laws.specs.Gains.{gained};
ghost use Rattle.rest_laws.specs.Left.{bound_of, caps_of, entries, left};
ghost use Rattle.rest_laws.specs.Rounds.{IsRound};
ghost use Rattle.rest_laws.specs.Short.{IsSmall, answer_size, are_answers_short, can_count, orders_short};
ghost use Rattle.rest_laws.specs.ToRest.{AlwaysHasRoom, AlwaysRounds, AlwaysShort, AreAmong, AreRounds, BeginAtRestBut, ComesToRest, names_inside};

/// There is always one more round, whatever clocks read in it, where turns always have room: no feed that a turn writes to
/// is full, and no entry that it would make is too long. Nothing else refuses a turn, a delivery of what a round sends, or
/// an end of a link. Where there are few entries, and few are left for turns to make, no feed is ever full.
pub fn there_is_always_a_round()
    ensures here { (net : Net) (readings : ℕ → List ℕ) (reads : ℕ → ℕ) (x : World) → IsTree net → Invariant net x
        → IsTrue (names_inside net x) → AlwaysHasRoom net readings x → AreAmong readings reads
        → (z : World) × (steps : List WorldStep) × IsRound net reads x steps z }
    ensures always { (net : Net) (readings : ℕ → List ℕ) (x : World) → IsTree net → Invariant net x
        → IsTrue (names_inside net x) → AlwaysHasRoom net readings x → AlwaysRounds net readings x }
    ensures room { (net : Net) (readings : ℕ → List ℕ) (x : World) → Invariant net x
        → entries net x + left net (caps_of net x) readings x < 4294967295 → AlwaysShort net readings x
        → AlwaysHasRoom net readings x }
{}

/// Where there is always one more round, the network comes to rest after at most so many rounds, a number that the world
/// at the start decides with the readings that clocks may have, and then its work is done: so from each world of steps, as
/// long as no input comes from outside. Clocks go on between rounds among the readings that are listed for them; of whatever
/// rounds come, all but so many begin at rest.
pub fn rounds_come_to_rest()
    ensures world { (net : Net) (readings : ℕ → List ℕ) (clocks : ℕ → ℕ → ℕ) (x : World) → IsTree net → Invariant net x
        → AlwaysRounds net readings x → ((k : ℕ) → AreAmong readings (clocks k)) → ComesToRest net readings clocks x }
    ensures whatever { (net : Net) (readings : ℕ → List ℕ) (clocks : ℕ → ℕ → ℕ) (k n : ℕ) (x z : World) → IsTree net
        → Invariant net x → (rounds : AreRounds net readings clocks k x z) → bound_of net readings x ≤ gained net x + n
        → BeginAtRestBut n net readings clocks k x z rounds }
    ensures free { (net : Net) (readings : ℕ → List ℕ) (clocks : ℕ → ℕ → ℕ) (steps : List WorldStep) → IsTree net
        → AlwaysRounds net readings (free_run net steps empty_world) → ((k : ℕ) → AreAmong readings (clocks k))
        → ComesToRest net readings clocks (free_run net steps empty_world) }
{}

/// Orders alone tell that no entry which a turn would make is too long: no answer adds more than a few numbers to its
/// order, and an entry counts each workstation once. So a world of steps has short answers where the orders that its steps
/// give have, whatever else they bring. Each order that is written in the program's language has a short answer: a fit one,
/// which submits one job at most and no dependency.
pub fn answers_stay_short()
    ensures always { (net : Net) (readings : ℕ → List ℕ) (x : World) → Invariant net x → IsTrue (names_inside net x)
        → IsTrue (are_answers_short net x) → AlwaysShort net readings x }
    ensures run { (net : Net) (steps : List WorldStep) → IsTrue (can_count (node_count net))
        → AllByRecursion (λ s. IsTrue (orders_short s)) steps → IsTrue (are_answers_short net (run net steps empty_world)) }
    ensures free { (net : Net) (steps : List WorldStep) → IsTrue (can_count (node_count net))
        → AllByRecursion (λ s. IsTrue (orders_short s)) steps
        → IsTrue (are_answers_short net (free_run net steps empty_world)) }
    ensures written { (c : Cmd) → IsFitCmd c → IsSmall c → answer_size c ≤ 4194304 }
{}

/// A network comes to rest, and has done its work: from each world of steps, where turns always have room, there are
/// rounds, at most so many as that world decides, with links that come up and clocks that go on between them, whose end is
/// at rest. That turns always have room is told by that world too: where few entries are there and left to make, and each
/// answer is short, as it is where its steps gave such orders alone.
pub fn a_network_comes_to_rest()
    ensures world { (net : Net) (readings : ℕ → List ℕ) (clocks : ℕ → ℕ → ℕ) (x : World) → IsTree net → Invariant net x
        → IsTrue (names_inside net x) → AlwaysHasRoom net readings x → ((k : ℕ) → AreAmong readings (clocks k))
        → ComesToRest net readings clocks x }
    ensures run { (net : Net) (readings : ℕ → List ℕ) (clocks : ℕ → ℕ → ℕ) (steps : List WorldStep) → IsTree net
        → AlwaysHasRoom net readings (run net steps empty_world) → ((k : ℕ) → AreAmong readings (clocks k))
        → ComesToRest net readings clocks (run net steps empty_world) }
    ensures free { (net : Net) (readings : ℕ → List ℕ) (clocks : ℕ → ℕ → ℕ) (steps : List WorldStep) → IsTree net
        → AlwaysHasRoom net readings (free_run net steps empty_world) → ((k : ℕ) → AreAmong readings (clocks k))
        → ComesToRest net readings clocks (free_run net steps empty_world) }
    ensures told { (net : Net) (readings : ℕ → List ℕ) (clocks : ℕ → ℕ → ℕ) (x : World) → IsTree net → Invariant net x
        → IsTrue (names_inside net x) → IsTrue (are_answers_short net x)
        → entries net x + left net (caps_of net x) readings x < 4294967295 → ((k : ℕ) → AreAmong readings (clocks k))
        → ComesToRest net readings clocks x }
    ensures ordered { (net : Net) (readings : ℕ → List ℕ) (clocks : ℕ → ℕ → ℕ) (steps : List WorldStep) → IsTree net
        → IsTrue (can_count (node_count net)) → AllByRecursion (λ s. IsTrue (orders_short s)) steps
        → entries net (free_run net steps empty_world)
        + left net (caps_of net (free_run net steps empty_world)) readings (free_run net steps empty_world) < 4294967295
        → ((k : ℕ) → AreAmong readings (clocks k))
        → ComesToRest net readings clocks (free_run net steps empty_world) }
{}
