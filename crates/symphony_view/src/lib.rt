//! What a node shows of its plan: the states of jobs and streams, how many are in each, the listing as text, and the bytes
//! of Symphony.
//!
//! The states are those of `model::specs::States`, by the entries that an `Owners` took. `listing` gives the bytes of
//! `specs/Listings`, and `symphony` those of `specs/Symphonies`. Both are functions of a view that read its events
//! alone: nodes that hold the same events show the same, which `shows_events_alone` says. `state_counts` counts the
//! members of the plan and their jobs by their states, in the order of the words of states; what is counted is
//! `specs/Counts`.
#![tactic(auto)]

mod counts;
mod cpus;
mod lateness;
mod launches;
mod listings;
mod prompts;
mod ranges;
mod state_totals;
mod states;
mod symphonies;

ghost use Rattle.std.specs.Prelude.{◌≡◌};
ghost use Rattle.model.specs.Types.{Net};
ghost use Rattle.model.specs.History.{View};
ghost use Rattle.model.specs.Locality.{SameEvents};
ghost use Rattle.symphony_view.specs.Listings.{listing_of};
ghost use Rattle.symphony_view.specs.Symphonies.{symphony_of};

pub use listings::listing;
pub use state_totals::{StateCounts, state_counts};
pub use states::{JobState, StreamState, job_state, job_word, stream_state, stream_word};
pub use symphonies::symphony;

/// Nodes that hold the same events have the same listing and the same Symphony.
pub fn shows_events_alone()
    ensures listing { (net : Net) (V U : View) → SameEvents V U → listing_of net V ≡ listing_of net U }
    ensures symphony { (net : Net) (V U : View) → SameEvents V U → symphony_of net V ≡ symphony_of net U }
{}
