//! A network of running nodes is a world of the definitions.
//!
//! A night is one list of what happens at the workstations of a network: runs begin, do what they do, and stop at whatever
//! moment (`specs/Happenings`). `specs/Nights` has its premises, on files and on links, and says which world it is. Each
//! night of the premises is such a world, so its history is sound; the other laws say what follows of launches, plans and
//! listings. `specs/Leaving` ties the end of a run to the stop in a night.
#![tactic(auto)]

mod laws;

pub use laws::{
    ended_runs_are_lives, every_night_is_a_world, launches_stand_on_what_they_count,
    new_plans_carry_what_the_option_takes, no_launch_starts_twice, the_same_events_show_the_same,
};
