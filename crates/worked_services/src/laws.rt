//! The law.
ghost use Rattle.network_runs.specs.Nights.{IsSoundNight};
ghost use Rattle.service_nights.specs.Served.{AreServices, BringsWhatWasSent};
ghost use Rattle.service_nights.specs.Services.{night_of};
ghost use Rattle.worked_night.specs.Workload.{defs};
ghost use Rattle.worked_services.specs.Served.{services};

use outside::Disk;
use outside_mem::CrashDisk;
use service_nights::services_are_a_world;

/// The worked services are services of the premises, and bring what was sent. So they are a night with a sound history.
pub fn the_worked_services_are_services()
    ensures premises { AreServices ⟦<CrashDisk as Disk>⟧.seen ⟦<CrashDisk as Disk>⟧.faults ⟦<CrashDisk as Disk>⟧.moment
        ⟦<CrashDisk as Disk>⟧.may_leave ⟦<CrashDisk as Disk>⟧.left_since defs services }
    ensures links { BringsWhatWasSent (night_of services) }
    ensures sound { IsSoundNight defs (night_of services) }
{
    services_are_a_world::<CrashDisk>();
}
