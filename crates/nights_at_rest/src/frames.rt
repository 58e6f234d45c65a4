//! Rounds in which what was sent comes, whatever number it has.
ghost use Rattle.std.specs.Prelude.{◌<◌, ◌≤◌, ◌⊎◌, ◌+◌, ◌∷◌, [], ℕ};
ghost use Rattle.model.specs.Types.{Net};
ghost use Rattle.model.specs.Network.{IsTree};
ghost use Rattle.model.specs.World.{World};
ghost use Rattle.model.specs.Invariant.{Invariant};
ghost use Rattle.rest_laws.specs.Gains.{gained};
ghost use Rattle.rest_laws.specs.Left.{bound_of};
ghost use Rattle.rest_laws.specs.Rest.{IsAtRest};
ghost use Rattle.rest_laws.specs.Rounds.{BringsNoMore};
ghost use Rattle.nights_at_rest.specs.Frames.{AreFrameRounds, BeginAtRestBut, IsFrameRound};

/// Where frames come, and nothing tells their numbers, a round gains or finds the network at rest: so of whatever rounds
/// come, all but at most so many, a number that the first world decides, begin at rest, with the work done.
pub fn rounds_of_frames_come_to_rest()
    ensures rest { (net : Net) (reads : ℕ → ℕ) (x y : World) → IsTree net → Invariant net x
        → IsFrameRound net reads x y → BringsNoMore x y → IsAtRest net reads x }
    ensures gains { (net : Net) (reads : ℕ → ℕ) (x y : World) → IsTree net → Invariant net x
        → IsFrameRound net reads x y → (gained net x < gained net y) ⊎ IsAtRest net reads x }
    ensures few { (net : Net) (reads : ℕ → ℕ) (k n : ℕ) (x z : World) → IsTree net → Invariant net x
        → bound_of net (λ w. reads w ∷ []) x ≤ gained net x + n → (rounds : AreFrameRounds net reads k x z)
        → BeginAtRestBut n net reads k x z rounds }
{}
