//! A network comes to rest while processes start and end, and files are found.
//!
//! The laws of `rest_laws` speak of rounds of turns and deliveries alone. Here a process may start, fail to start or end in
//! a round, and a file may be found, at any moment and in any order. What stays out is what people do, an order and a new
//! plan, and a stop and a link that breaks. A launch starts once and ends once, and no job is launched again without an
//! order; so what can be told of processes and files is bounded by the world at the start, and so are the rounds before rest.
#![tactic(auto)]

pub mod worked;

ghost use Rattle.std.specs.List.{AllByRecursion};
ghost use Rattle.std.specs.Prelude.{◌≡◌, ◌<◌, ◌≤◌, ◌⊎◌, ◌+◌, ℕ, IsTrue, List, Ok};
ghost use Rattle.model.specs.Types.{Net, WorldStep};
ghost use Rattle.model.specs.Network.{IsTree};
ghost use Rattle.model.specs.World.{World, empty_world};
ghost use Rattle.model.specs.FreeSteps.{free_run, free_step};
ghost use Rattle.model.specs.Invariant.{Invariant};
ghost use Rattle.rest_laws.specs.Gains.{gained};
ghost use Rattle.rest_laws.specs.Left.{Caps, Covers, caps_of, entries, left};
ghost use Rattle.rest_laws.specs.Rest.{IsAtRest};
ghost use Rattle.rest_laws.specs.Rounds.{AreLinked, AreTaken, IsOpenRound};
ghost use Rattle.rest_laws.specs.Short.{are_answers_short};
ghost use Rattle.rest_laws.specs.ToRest.{AreAmong, ComesToRest};
ghost use Rattle.launches_at_rest.specs.Rounds.{AreWorkingRounds, WorkRestsBut};
ghost use Rattle.launches_at_rest.specs.Tells.{tells_left, work_bound};
ghost use Rattle.launches_at_rest.specs.Told.{IsWorkingRound, is_told, works_at};

/// Each thing that is told lowers what is left: the start of a launch and a file lower what can still be told, and an end or
/// a failed start lowers what turns can still make. No turn raises the sum: a launch has the count of its start and of its
/// end from the run that was due, and a rerun has it from the order. So the sum of the entries and
/// of all that is left never grows.
pub fn what_is_told_leaves_less()
    ensures told { (net : Net) (caps : ℕ → Caps) (readings : ℕ → List ℕ) (x y : World) (s : WorldStep) → Invariant net x
        → Covers net caps x → IsTrue (is_told s) → free_step net x s ≡ Ok y
        → left net caps readings y + tells_left net caps y < left net caps readings x + tells_left net caps x }
    ensures bound { (net : Net) (caps : ℕ → Caps) (readings : ℕ → List ℕ) (steps : List WorldStep) (x y : World)
        → Invariant net x → Covers net caps x → AllByRecursion (λ s. IsTrue (works_at readings s)) steps
        → AreTaken net x steps y
        → entries net y + (left net caps readings y + tells_left net caps y)
        ≤ entries net x + (left net caps readings x + tells_left net caps x) }
    ensures covers { (net : Net) (caps : ℕ → Caps) (readings : ℕ → List ℕ) (steps : List WorldStep) (x y : World)
        → Invariant net x → Covers net caps x → AllByRecursion (λ s. IsTrue (works_at readings s)) steps
        → AreTaken net x steps y → Covers net caps y }
{}

/// A round in which things may be told gains, or finds the network at rest. An open round of turns and deliveries is one.
pub fn a_working_round_gains_or_finds_rest()
    ensures gains { (net : Net) (readings : ℕ → ℕ) (x y : World) (steps : List WorldStep) → IsTree net
        → Invariant net x → AreLinked net x → IsWorkingRound net readings x steps y
        → (gained net x < gained net y) ⊎ IsAtRest net readings x }
    ensures open_ { (net : Net) (readings : ℕ → ℕ) (x y : World) (steps : List WorldStep)
        → IsOpenRound net readings x steps y → IsWorkingRound net readings x steps y }
{}

/// A network comes to rest while processes start and end and files are found: of whatever rounds come, all but at most so
/// many begin at rest, with the work done, and the world at the start decides that number with the readings that clocks may
/// have. How the processes end has no part in it, nor how long they run.
pub fn working_rounds_come_to_rest()
    ensures world { (net : Net) (readings : ℕ → List ℕ) (clocks : ℕ → ℕ → ℕ) (k n : ℕ) (x z : World) → IsTree net
        → Invariant net x → (rounds : AreWorkingRounds net readings clocks k x z)
        → work_bound net readings x ≤ gained net x + n → WorkRestsBut n net readings clocks k x z rounds }
    ensures free { (net : Net) (readings : ℕ → List ℕ) (clocks : ℕ → ℕ → ℕ) (k n : ℕ) (steps : List WorldStep) (z : World)
        → IsTree net → (rounds : AreWorkingRounds net readings clocks k (free_run net steps empty_world) z)
        → work_bound net readings (free_run net steps empty_world) ≤ gained net (free_run net steps empty_world) + n
        → WorkRestsBut n net readings clocks k (free_run net steps empty_world) z rounds }
{}

/// And it comes to rest again: from each world to which work has led there are rounds that lead to rest, with the work done,
/// where each order of the world at the start has a short answer, and few entries are there, left to make and left to be told.
pub fn a_network_comes_to_rest_again()
    ensures { (net : Net) (readings : ℕ → List ℕ) (clocks : ℕ → ℕ → ℕ) (first steps : List WorldStep) (y : World)
        → IsTree net → IsTrue (are_answers_short net (free_run net first empty_world))
        → entries net (free_run net first empty_world)
        + (left net (caps_of net (free_run net first empty_world)) readings (free_run net first empty_world)
        + tells_left net (caps_of net (free_run net first empty_world)) (free_run net first empty_world)) < 4294967295
        → AllByRecursion (λ s. IsTrue (works_at readings s)) steps
        → AreTaken net (free_run net first empty_world) steps y → ((k : ℕ) → AreAmong readings (clocks k))
        → ComesToRest net readings clocks y }
{}
