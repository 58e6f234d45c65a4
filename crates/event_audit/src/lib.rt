//! Whether a history and its starts are sound, entry by entry and start by start.
//!
//! `audit` decides `model::specs::Sound` of any lists, and names the first item that fails. `specs/Items` says what an
//! item is, and the law that a history is sound exactly where each item is right. It is one pass: the entries are taken
//! one by one, and what they tell is kept beside them. What a decision saw is asked at its counts (`counted_facts`,
//! `counted_decisions`), and what was told of launches by their numbers (`ToldLaunches`). So nothing is copied for a
//! decision, and nothing is walked that is not the decision's own: its counts, its object's dependencies, the open launches
//! and the streams under way at its workstation.
#![tactic(auto)]

mod additions;
mod answers;
mod audits;
mod carried_streams;
mod decisions;
mod draft_deps;
mod draft_documents;
mod draft_names;
mod entries;
mod findings;
mod follows;
mod lates;
mod launches;
mod meanings;
mod names;
mod numbers;
mod plans;
mod prefixes;
mod starts;
mod times;

ghost use Rattle.std.specs.Prelude.{ℕ, ◌↔◌, List};
ghost use Rattle.model.specs.Types.{Entry as Kept, Net, Start as Started};
ghost use Rattle.model.specs.Sound.{IsSound};
ghost use Rattle.event_audit.specs.Items.{IsRightItem};

pub use audits::audit;
pub use findings::Audit;

/// A history and its starts are sound exactly where each item is right.
pub fn sound_means_each_item()
    ensures { (net : Net) (G : List Kept) (starts : List Started)
        → IsSound net G starts ↔ ((n : ℕ) → IsRightItem net G starts n) }
{}
