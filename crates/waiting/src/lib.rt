//! Why a job or a stream waits: what it lacks, one by one, with what is there instead.
//!
//! `specs/Lacks` has the rows: each condition of readiness, of a release and of an end, in the order in which
//! `model::specs::Readiness` and `OwnMembers` have them, beside the value that names it where it fails. A list of lacks
//! is what fails of the rows. `lacks_are_exact` says that nothing else decides: the list is empty exactly where the job
//! is ready, and the rows' conditions are those of the definitions, one by one.
//!
//! `what_is_named_holds_back` says a second time, name by name, what each name claims.
//!
//! A workstation that is asked about another's job or stream decides nothing there. It is told so first, and then what
//! is lacking at the object's own workstation, as far as the entries tell that are held here.
//!
//! What that costs: one job asks for its own dependencies, for what holds units that it needs, and for the open launches
//! of its workstation. Nothing walks the plan.
#![tactic(auto)]

mod jobs;
mod lacks;
mod needs;
mod notes;
mod streams;

ghost use Rattle.std.specs.Prelude.{[], ◌≡◌, ◌∷◌, ◌++◌, ◌↔◌, ◌==◌, ℕ, true};
ghost use Rattle.std.specs.List.{AllByRecursion};
ghost use Rattle.model.specs.Types.{Job, Net, StreamDoc};
ghost use Rattle.model.specs.Words.{all_of};
ghost use Rattle.model.specs.History.{View};
ghost use Rattle.model.specs.Catalogue.{StreamJob};
ghost use Rattle.model.specs.OwnMembers.{may_end, may_end_in, may_release, may_release_in};
ghost use Rattle.model.specs.Readiness.{is_ready, ready_conditions};
ghost use Rattle.waiting.specs.Lacks as lacks;
ghost use Rattle.waiting.specs.Rows.{conditions, failing};
ghost use Rattle.waiting.specs.Claims.{holds_back, holds_end_back, holds_release_back};

pub use jobs::job_lacks;
pub use lacks::Lack;
pub use streams::{end_lacks, release_lacks};

/// A list of lacks is empty exactly where the decision may be taken.
pub fn lacks_are_exact()
    ensures job { (net : Net) (V : View) (w j : ℕ) →
        (lacks.job_lacks net V w j ≡ []) ↔ (is_ready net V w j ≡ true) }
    ensures release { (net : Net) (V : View) (w s : ℕ) →
        (lacks.release_lacks net V w s ≡ []) ↔ (may_release net V w s ≡ true) }
    ensures end { (net : Net) (V : View) (w s : ℕ) →
        (lacks.end_lacks V w s ≡ []) ↔ (may_end V w s ≡ true) }
{}

/// Each thing named holds the job or the stream back on its face: what the name says is so, in what this node holds.
pub fn what_is_named_holds_back()
    ensures job { (net : Net) (V : View) (w : ℕ) (p : StreamJob) →
        AllByRecursion (λ (x : Lack). holds_back net V w p x ≡ true) (failing (lacks.job_rows net V w p)) }
    ensures release { (net : Net) (V : View) (w : ℕ) (d : StreamDoc) →
        AllByRecursion (λ (x : Lack). holds_release_back net V w d x ≡ true) (failing (lacks.release_rows net V w d)) }
    ensures end { (V : View) (w : ℕ) (d : StreamDoc) →
        AllByRecursion (λ (x : Lack). holds_end_back V w d x ≡ true) (failing (lacks.end_rows V w d)) }
{}

/// The rows have the conditions of the definitions, one by one and in their order, the dependencies in place of
/// `all_satisfied`, the jobs in place of `list_all`. A list names what fails of the rows; so each condition that fails is
/// named, and each thing named fails.
pub fn rows_are_the_conditions()
    ensures job { (net : Net) (V : View) (p : StreamJob) →
        ready_conditions net V p.doc.ws p ≡ (p.doc.ws == p.doc.ws)
        ∷ conditions (lacks.stream_rows V p) ++ conditions (lacks.own_rows V p.doc.ws p.doc.no)
        ++ all_of (conditions (lacks.dep_rows net V p.doc.ws (Job p.doc.no)))
        ∷ conditions (lacks.last_rows V p.doc.ws p) }
    ensures release { (net : Net) (V : View) (d : StreamDoc) →
        may_release_in net V d.ws d ≡ all_of (conditions (lacks.release_rows net V d.ws d)) }
    ensures end { (net : Net) (V : View) (d : StreamDoc) →
        may_end_in V d.ws d ≡ all_of (conditions (lacks.end_rows V d.ws d)) }
{}
