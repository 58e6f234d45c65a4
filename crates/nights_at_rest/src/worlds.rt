//! Rounds of the world of the program.
ghost use Rattle.std.specs.Prelude.{◌≡◌, ◌≤◌, ◌+◌, ◌∷◌, [], ℕ, IsTrue, List, Ok};
ghost use Rattle.model.specs.FreeSteps.{free_step};
ghost use Rattle.model.specs.Network.{IsTree};
ghost use Rattle.model.specs.Types.{WorldStep};
ghost use Rattle.model.specs.World.{World};
ghost use Rattle.rest_laws.specs.Gains.{gained};
ghost use Rattle.rest_laws.specs.Left.{bound_of};
ghost use Rattle.rest_laws.specs.Rounds.{IsRound, is_of_round};
ghost use Rattle.rest_laws.specs.ToRest.{AlwaysHasRoom, AreAmong};
ghost use Rattle.network_world.specs.Standing.{IsRefusalDue, StandsFor};
ghost use Rattle.network_world.specs.Stations.{WorldState};
ghost use Rattle.network_world.specs.declared.refusals.StepRefused.{StepRefused};
ghost use Rattle.nights_at_rest.specs.Worlds.{AreWorldRounds, IsLimited, WorldsRestBut};

use rest_laws::arriving::there_is_always_a_round;

/// The world of the program comes to rest by rounds: a turn of each node, and feeds that deliver what was sent. Where turns
/// have room there is always such a round of the definitions. The program's world refuses no turn and no delivery that the
/// definitions take without limits, save where memory runs out or a limit of a replay was reached; and of whatever rounds
/// it takes, all but at most so many, a number that the world at the start decides, begin at rest, with the work done.
pub fn worlds_come_to_rest()
    ensures exists { (s : WorldState) (x : World) (readings : ℕ → List ℕ) (reads : ℕ → ℕ) → IsTree s.net → StandsFor s x
        → AlwaysHasRoom s.net readings x → AreAmong readings reads
        → (z : World) × (steps : List WorldStep) × IsRound s.net reads x steps z }
    ensures taken { (s : WorldState) (x y : World) (st : WorldStep) (r : StepRefused) → StandsFor s x
        → IsTrue (is_of_round st) → free_step s.net x st ≡ Ok y → IsRefusalDue s st r → IsLimited x r }
    ensures rest { (reads : ℕ → ℕ) (k n : ℕ) (s t : WorldState) (x : World) → IsTree s.net → StandsFor s x
        → bound_of s.net (λ w. reads w ∷ []) x ≤ gained s.net x + n → (rounds : AreWorldRounds reads k s t)
        → WorldsRestBut n reads k s t rounds }
{
    there_is_always_a_round();
}
