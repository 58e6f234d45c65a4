//! The law.
ghost use Rattle.network_runs.specs.Nights.{IsNight, IsSoundNight};
ghost use Rattle.worked_night.specs.Happened.{night};
ghost use Rattle.worked_night.specs.Workload.{defs};

use network_runs::every_night_is_a_world;

/// The worked night is a night of the premises. So it is a world of the definitions, with a sound history.
pub fn the_worked_night_is_a_night()
    ensures premises { IsNight defs night }
    ensures sound { IsSoundNight defs night }
{
    every_night_is_a_world();
}
