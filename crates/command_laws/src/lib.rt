//! What a command wrote is taken by the next one.
//!
//! What `compile` wrote calls for itself where it is compiled again, and on each day for the plan for which the text calls
//! that was compiled. `specs/Canonical.antt` says so, and `src/laws.rt` has the law. `canonical_laws` has why: both texts
//! have one normal form, which decides what comes of them.
#![tactic(auto)]

mod laws;

pub use laws::canonical_texts_call_for_the_same;
