//! The laws of what a replay never spends.
ghost use Rattle.std.specs.Prelude.{◌≡◌, ◌≢◌, ◌≤◌, Err, IsTrue, List, length};
ghost use Rattle.model.specs.Types.{LimitName, Net, WorldStep};
ghost use Rattle.model.specs.NewPlan.{jobs_in_drafts};
ghost use Rattle.model.specs.StepFaults.{CarryFault, StepFault};
ghost use Rattle.model.specs.World.{StepRefused, World, empty_world, run, step};
ghost use Rattle.refusal_laws.specs.Named.{drafts_in, is_counted};

/// Whatever steps a world has taken within the limits of a replay, no step finds a place spent, nor the runs of plans, nor
/// the numbers of streams and jobs, where its own plan has at most 4,022,337,535 streams and as many jobs: there are at
/// most 200,000 entries, and these have at most 272,629,759 bytes.
pub fn replays_spend_nothing()
    ensures places { (net : Net) (steps : List WorldStep) (s : WorldStep)
        → step net (run net steps empty_world) s ≢ Err (StepRefused.Step StepFault.PlaceSpent) }
    ensures runs { (net : Net) (steps : List WorldStep) (s : WorldStep)
        → step net (run net steps empty_world) s ≢ Err (StepRefused.Step (StepFault.Carry CarryFault.RunsSpent)) }
    ensures numbers { (net : Net) (steps : List WorldStep) (s : WorldStep) → length (drafts_in s) ≤ 4022337535
        → jobs_in_drafts (drafts_in s) ≤ 4022337535
        → step net (run net steps empty_world) s ≢ Err (StepRefused.Step (StepFault.Carry CarryFault.NumbersSpent)) }
{}

/// A limit that refuses a step is that of steps, of packets or of bytes.
pub fn three_limits_are_counted()
    ensures { (net : Net) (x : World) (s : WorldStep) (l : LimitName) → step net x s ≡ Err (StepRefused.Limit l)
        → IsTrue (is_counted l) }
{}
