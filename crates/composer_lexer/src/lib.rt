//! The tokens of composer text: words, texts in quotes and marks.
//!
//! Which tokens a text has, and which fault it has where it has none, is said by cases on its bytes in
//! `specs/Tokens.antt`; `tokens` answers exactly that. `specs/Places.antt` says in other words what comes of it: each
//! token is the slice at its span, on the line of its place, one behind the other, and a fault has the line of its place.
#![tactic(auto)]

mod faults;
mod fronts;
mod lexing;

pub use faults::LexFault;
pub use lexing::tokens;
