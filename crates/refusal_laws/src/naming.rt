//! The laws of steps that name workstations outside the network, or another one than the master.
ghost use Rattle.std.specs.Prelude.{◌≡◌, ◌≢◌, Err, IsTrue, List, false};
ghost use Rattle.model.specs.Types.{Net, WorldStep};
ghost use Rattle.model.specs.StepFaults.{StepFault};
ghost use Rattle.model.specs.World.{StepRefused, World, empty_world, run, step};
ghost use Rattle.refusal_laws.specs.Named.{names_no_stranger, plans_elsewhere};

/// Whatever steps a world has taken, it refuses no step as naming a workstation outside the network, unless the step names
/// one itself: what a packet names is in the network.
pub fn only_the_step_names_strangers()
    ensures { (net : Net) (steps : List WorldStep) (s : WorldStep) → IsTrue (names_no_stranger net s)
        → step net (run net steps empty_world) s ≢ Err (StepRefused.Step StepFault.NotInNetwork) }
{}

/// No step is refused as another's than the master's, unless it takes a plan elsewhere.
pub fn only_plans_ask_for_the_master()
    ensures { (net : Net) (x : World) (s : WorldStep) → plans_elsewhere s ≡ false
        → step net x s ≢ Err (StepRefused.Step StepFault.NotMaster) }
{}
