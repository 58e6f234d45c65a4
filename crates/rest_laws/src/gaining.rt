//! What a round gains: a turn that is not quiet leads on, so a round that does not begin at rest leaves more than it
//! found, and rounds before rest are few.
ghost use Rattle.std.specs.List.{AllByRecursion};
ghost use Rattle.std.specs.Prelude.{◌≡◌, ◌<◌, ◌≤◌, ◌⊎◌, ◌+◌, ℕ, IsTrue, List, Ok};
ghost use Rattle.model.specs.Types.{Deliver, Linked, Net, Take, Turn, WorldStep};
ghost use Rattle.model.specs.Words.{has};
ghost use Rattle.model.specs.Network.{IsTree};
ghost use Rattle.model.specs.World.{World, step};
ghost use Rattle.model.specs.FreeSteps.{free_step};
ghost use Rattle.model.specs.Invariant.{Invariant};
ghost use Rattle.rest_laws.specs.Gains.{gained, most};
ghost use Rattle.rest_laws.specs.Left.{AreBusyRoundsAt, Caps, Covers, bound_of, caps_of, entries, keeps_to, left};
ghost use Rattle.rest_laws.specs.Leads.{IsLinkedBack, LeadsOn};
ghost use Rattle.rest_laws.specs.Rounds.{AreBusyRounds, AreLinked, AreTaken, BringsNoMore, IsOpenRound, IsRound};
ghost use Rattle.rest_laws.specs.Rest.{IsAtRest, IsQuiet};

/// A turn that is not quiet leads on, where the other end of each link that is up is up too: at once there is more,
/// or once the first packet that it sent is delivered, or once the answer to that is. So a round that brings no more
/// finds the network at rest.
pub fn a_turn_leads_on()
    ensures { (net : Net) (x y : World) (n t : ℕ) → IsTree net → Invariant net x → IsLinkedBack net x n
        → step net x (Take n (Turn t)) ≡ Ok y → (IsQuiet net x n t → ⊥) → LeadsOn net x y n }
{}

/// A round that brings no more finds the network at rest: so a network whose links are up does not stand still before
/// its work is done. It may be open: what is sent late in it may come after it.
pub fn a_round_brings_more_or_finds_rest()
    ensures rest { (net : Net) (readings : ℕ → ℕ) (x y : World) (steps : List WorldStep) → IsTree net
        → Invariant net x → AreLinked net x → IsOpenRound net readings x steps y → BringsNoMore x y
        → IsAtRest net readings x }
    ensures open_ { (net : Net) (readings : ℕ → ℕ) (x y : World) (steps : List WorldStep)
        → IsRound net readings x steps y → IsOpenRound net readings x steps y }
{}

/// A round gains, or finds the network at rest; and what was gained is at most so much. So rounds in which no entry is
/// made come to rest after at most as many as are left to gain.
pub fn a_round_gains_or_finds_rest()
    ensures gains { (net : Net) (readings : ℕ → ℕ) (x y : World) (steps : List WorldStep) → IsTree net
        → Invariant net x → AreLinked net x → IsOpenRound net readings x steps y
        → (gained net x < gained net y) ⊎ IsAtRest net readings x }
    ensures most { (net : Net) (x : World) → Invariant net x → gained net x ≤ most net x }
    ensures same_most { (net : Net) (x y : World) → x.history ≡ y.history → most net x ≡ most net y }
{}

/// Busy rounds are few: however many there are, one after another, with ends of links that come up between them, no
/// more of them can be than what everybody would have gained with every entry that there is at their end.
pub fn busy_rounds_are_few()
    ensures { (net : Net) (k : ℕ) (x z : World) → IsTree net → Invariant net x → AreBusyRounds net k x z
        → gained net x + k ≤ most net z }
{}

/// Each entry that a turn makes lowers what is left for turns to do: whatever allowed it is gone after it. The turn reads
/// one of the readings that its workstation's clock may have. Deliveries and ends of links that come up leave it. So what
/// there is and what is left never grow together; and what can still come to the catalogue stays covered.
pub fn each_entry_of_a_turn_leaves_less()
    ensures turn { (net : Net) (caps : ℕ → Caps) (readings : ℕ → List ℕ) (x y : World) (w t : ℕ)
        → IsTrue (has (readings w) t) → Invariant net x → Covers net caps x
        → free_step net x (Take w (Turn t)) ≡ Ok y
        → (left net caps readings y < left net caps readings x) ⊎ (y.history ≡ x.history) }
    ensures delivery { (net : Net) (x y : World) (a b k : ℕ) → free_step net x (Deliver a b k) ≡ Ok y
        → y.history ≡ x.history }
    ensures link { (net : Net) (x y : World) (w v : ℕ) → free_step net x (Take w (Linked v)) ≡ Ok y
        → y.history ≡ x.history }
    ensures same { (net : Net) (caps : ℕ → Caps) (readings : ℕ → List ℕ) (x y : World) → y.history ≡ x.history
        → left net caps readings y ≡ left net caps readings x }
    ensures bound { (net : Net) (caps : ℕ → Caps) (readings : ℕ → List ℕ) (steps : List WorldStep) (x y : World)
        → Invariant net x → Covers net caps x → AllByRecursion (λ s. IsTrue (keeps_to readings s)) steps
        → AreTaken net x steps y
        → entries net y + left net caps readings y ≤ entries net x + left net caps readings x }
    ensures covers { (net : Net) (caps : ℕ → Caps) (readings : ℕ → List ℕ) (steps : List WorldStep) (x y : World)
        → Invariant net x → Covers net caps x → AllByRecursion (λ s. IsTrue (keeps_to readings s)) steps
        → AreTaken net x steps y → Covers net caps y }
    ensures covered { (net : Net) (x : World) → Covers net (caps_of net x) x }
{}

/// Busy rounds are at most so many, a number that the world in which they begin decides with the readings that clocks may
/// have: so where no input comes from outside, and no turn is refused, rounds come to rest. Clocks may go on between them.
pub fn busy_rounds_are_bounded()
    ensures { (net : Net) (readings : ℕ → List ℕ) (k : ℕ) (x z : World) → IsTree net → Invariant net x
        → AreBusyRoundsAt net readings k x z → gained net x + k ≤ bound_of net readings x }
{}
