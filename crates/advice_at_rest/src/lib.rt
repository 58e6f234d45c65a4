//! What workstations advise themselves is bounded.
//!
//! Where a job ended badly its recovery may have the workstation give itself an order, to confirm the job or to rerun it. Each
//! such order is obeyed, or something else was done to the job in the meantime. A job is rerun by advice once at most, and
//! each of its runs ends badly once at most. So the world at the start bounds what workstations advise, and with it all that
//! turns make and all that is told, as long as nobody else gives an order and no plan is made.
#![tactic(auto)]

ghost use Rattle.std.specs.Prelude.{◌≡◌, ◌≤◌, ◌+◌, ◌<◌, ℕ, List, Ok, count_by};
ghost use Rattle.model.specs.Types.{Net, WorldStep};
ghost use Rattle.model.specs.FreeSteps.{free_step};
ghost use Rattle.model.specs.Invariant.{Invariant};
ghost use Rattle.model.specs.World.{World};
ghost use Rattle.rest_laws.specs.Gains.{gained};
ghost use Rattle.rest_laws.specs.Left.{entries, jobs_ahead};
ghost use Rattle.rest_laws.specs.Rounds.{AreTaken};
ghost use Rattle.advice_at_rest.specs.Advices.{advices_left};
ghost use Rattle.advice_at_rest.specs.Advised.{AllGoOn, IsAdvised, advised_bound, advised_entries, is_typing, most_advices};

/// Each order that a workstation advises itself leaves less to advise, and nothing else that goes on leaves more. So of
/// however many steps at most so many are advised orders, a number that the world at the start decides; and so are all
/// entries, and all that everybody gains.
pub fn advice_is_bounded()
    ensures less { (net : Net) (jobs : ℕ) (x y : World) (s : WorldStep) → Invariant net x → jobs_ahead net x < jobs
        → IsAdvised x s → free_step net x s ≡ Ok y → advices_left net jobs y < advices_left net jobs x }
    ensures few { (net : Net) (readings : ℕ → List ℕ) (steps : List WorldStep) (x y : World) → Invariant net x
        → (taken : AreTaken net x steps y) → AllGoOn net readings steps x y taken
        → count_by is_typing steps ≤ most_advices net x }
    ensures entries_ { (net : Net) (readings : ℕ → List ℕ) (steps : List WorldStep) (x y : World) → Invariant net x
        → (taken : AreTaken net x steps y) → AllGoOn net readings steps x y taken
        → entries net y ≤ advised_entries net readings x }
    ensures gained_ { (net : Net) (readings : ℕ → List ℕ) (steps : List WorldStep) (x y : World) → Invariant net x
        → (taken : AreTaken net x steps y) → AllGoOn net readings steps x y taken
        → gained net y ≤ advised_bound net readings x }
{}
