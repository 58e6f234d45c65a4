//! The laws.
ghost use Rattle.std.specs.Prelude.{ℕ, ◌++◌, ◌∷◌, ◌≡◌, Contains};
ghost use Rattle.composer_parser.specs.declared.Defs.{Defs};
ghost use Rattle.model.specs.Types.{Start};
ghost use Rattle.outside.specs.Calls.{StartCall};
ghost use Rattle.node_inputs.specs.Traces.{Event};
ghost use Rattle.network_runs.specs.Happenings.{started};
ghost use Rattle.network_runs.specs.Nights.{IsNight, IsSoundNight};
ghost use Rattle.service_nights.specs.Served.{AreServices, BringsWhatWasSent};
ghost use Rattle.service_nights.specs.Services.{Acts, Services, night_of, plain};

use network_runs::{every_night_is_a_world, no_launch_starts_twice};
use outside::Disk;
use run_laws::nothing_follows_a_refusal;

/// The services of a network's nodes, over disks that tell their bytes and cut at any moments, are a night of the premises
/// of `network_runs`, where what came whole from a workstation was sent by it: what a workstation kept outlives each stop,
/// with the entry in hand or without, and what is kept can be written down.
pub fn services_are_a_night<D: Disk>()
    ensures { (defs : Defs) (services : Services D)
        → AreServices D.seen D.faults D.moment D.may_leave D.left_since defs services
        → BringsWhatWasSent (night_of services) → IsNight defs (night_of services) }
{
    nothing_follows_a_refusal();
}

/// So they are a world of the definitions, and the history of what makers kept is sound.
pub fn services_are_a_world<D: Disk>()
    ensures { (defs : Defs) (services : Services D)
        → AreServices D.seen D.faults D.moment D.may_leave D.left_since defs services
        → BringsWhatWasSent (night_of services) → IsSoundNight defs (night_of services) }
{
    services_are_a_night::<D>();
    every_night_is_a_world();
}

/// Over all services of all workstations no launch is started twice: where a process is asked for, none was asked for
/// before for the same job and number.
pub fn no_service_starts_a_launch_twice<D: Disk>()
    ensures { (defs : Defs) (services : Services D)
        → AreServices D.seen D.faults D.moment D.may_leave D.left_since defs services
        → BringsWhatWasSent (night_of services)
        → (before behind : Services D) (w : ℕ) (call : StartCall) (s : Start)
        → services ≡ before ++ Acts w (Event.Starts call) ∷ behind → Contains (started (plain before)) s
        → s.job ≡ call.job → s.number ≡ call.number → ⊥ }
{
    services_are_a_night::<D>();
    no_launch_starts_twice();
}
