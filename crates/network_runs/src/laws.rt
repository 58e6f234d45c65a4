//! The laws.
ghost use Rattle.std.specs.Prelude.{ℕ, ◌++◌, ◌∷◌, ◌≡◌, Contains, List};
ghost use Rattle.composer_parser.specs.declared.Defs.{Defs};
ghost use Rattle.model.specs.History.{Seen, list_of, view_of};
ghost use Rattle.model.specs.Sound.{IsCarried, IsRightLaunch};
ghost use Rattle.model.specs.Types.{Entry, Events, Launched, NewPlan, Start, StreamDoc};
ghost use Rattle.outside.specs.Calls.{StartCall};
ghost use Rattle.outside.specs.Kept.{Bodies};
ghost use Rattle.symphony_view.specs.Listings.{listing_of};
ghost use Rattle.symphony_view.specs.Symphonies.{symphony_of};
ghost use Rattle.workload_defs.specs.Nets.{net_of};
ghost use Rattle.agent_core.specs.Nodes.{NodeState};
ghost use Rattle.node_inputs.specs.Keeping.{IsLeftAtEnd, bodies};
ghost use Rattle.node_inputs.specs.Traces.{Event, Trace};
ghost use Rattle.node_inputs.specs.declared.ends.NodeEnd.{NodeEnd};
ghost use Rattle.node_loop.specs.Runs.{Run, Running, running};
ghost use Rattle.network_runs.specs.Happenings.{Does, Night, kept_at, made, started};
ghost use Rattle.network_runs.specs.Leaving.{EndsAs};
ghost use Rattle.network_runs.specs.Nights.{IsBegun, IsNight, IsSoundNight};

use run_laws::{launches_are_started_once, nothing_follows_a_refusal};
use symphony_view::shows_events_alone;

/// Whatever happens in a night of the premises, it is a world of the definitions: its history is what makers kept, in the
/// order in which they kept it; what the disk of each workstation has is what it holds there, and restores it; the
/// processes that were asked for at a workstation are starts of that world, in that order. So the history is sound.
pub fn every_night_is_a_world()
    ensures { (defs : Defs) (night : Night) → IsNight defs night → IsSoundNight defs night }
{
    launches_are_started_once();
}

/// In a night of the premises no launch is started twice: where a process is asked for, none was asked for before for the
/// same job and number, at no workstation and in no run.
pub fn no_launch_starts_twice()
    ensures { (defs : Defs) (night : Night) → IsNight defs night
        → (before behind : Night) (w : ℕ) (call : StartCall) (s : Start)
        → night ≡ before ++ Does w (Event.Starts call) ∷ behind → Contains (started before) s → s.job ≡ call.job
        → s.number ≡ call.number → ⊥ }
{
    launches_are_started_once();
}

/// In a night of the premises each launch was ready in the view that it counts, and has the next number of its job. Of its
/// own workstation's events before it in the history it counts all, of any other's a front.
pub fn launches_stand_on_what_they_count()
    ensures { (defs : Defs) (night : Night) → IsNight defs night
        → (before behind : List Entry) (e : Entry) (w j n : ℕ) (seen : Seen) → made night ≡ before ++ e ∷ behind
        → e.feed ≡ Events w → e.body ≡ Launched j n seen → IsRightLaunch (net_of defs) before w j n seen }
{}

/// In a night of the premises each new plan is the master's, and carries exactly what its option takes of the streams that
/// the master's counts show unfinished.
pub fn new_plans_carry_what_the_option_takes()
    ensures { (defs : Defs) (night : Night) → IsNight defs night
        → (before behind : List Entry) (e : Entry) (run : ℕ) (cut : Seen) (carried : List ℕ) (docs : List StreamDoc)
        → made night ≡ before ++ e ∷ behind → e.body ≡ NewPlan run cut carried docs
        → (e.feed ≡ Events 0) × IsCarried (net_of defs).carry before run cut carried docs }
{}

/// Workstations whose disks have the same events show the same listing and the same Symphony.
pub fn the_same_events_show_the_same()
    ensures listing { (defs : Defs) (night : Night) (v w : ℕ)
        → ((u : ℕ) → list_of (kept_at v night) (Events u) ≡ list_of (kept_at w night) (Events u))
        → listing_of (net_of defs) (view_of (kept_at v night)) ≡ listing_of (net_of defs) (view_of (kept_at w night)) }
    ensures symphony { (defs : Defs) (night : Night) (v w : ℕ)
        → ((u : ℕ) → list_of (kept_at v night) (Events u) ≡ list_of (kept_at w night) (Events u))
        → symphony_of (net_of defs) (view_of (kept_at v night)) ≡ symphony_of (net_of defs) (view_of (kept_at w night)) }
{
    shows_events_alone();
}

/// A run that ended is a life of its workstation in a night, and what its keeper may be left with then is what the stop
/// of that life leaves: what it held at first, all that it kept, and the entry in hand or not.
pub fn ended_runs_are_lives()
    ensures { (defs : Defs) (w turns : ℕ) (entries : List Entry) (start : NodeState) (trace : Trace) (why : NodeEnd)
        (after : Running) (left : Bodies) → IsBegun (net_of defs) w entries start
        → Run defs turns (running start) trace (Some why) after → IsLeftAtEnd trace (Some (bodies entries)) left
        → EndsAs defs w entries trace left }
{
    nothing_follows_a_refusal();
}
