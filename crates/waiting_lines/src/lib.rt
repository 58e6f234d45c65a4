//! Why the jobs and streams of a plan wait, as text.
//!
//! `print_waits` gives the bytes of `specs/Answers`: for each member of the plan what its release or its end lacks,
//! and for each job of it in HOLD, FENCE or READY what it lacks to be ready, of all or of those whose names are of a
//! pattern. What is cancelled waits for nothing.
//! What is lacking is `waiting::specs::Lacks`, so a list says that nothing lacks exactly where the decision may be
//! taken (`waiting::lacks_are_exact`). How each thing is told is `specs/Lines`, with names in place of numbers
//! (`specs/Names`).
#![tactic(auto)]

mod answers;
mod lines;
mod names;
mod needs;
mod picks;
mod states;

pub use answers::print_waits;
