//! Circles among objects that follow each other.
//!
//! Objects are the places of a list, each with its line and the places of those that it follows. `least_line` gives the
//! least line of the objects that reach themselves again, by `specs/Circles`. It takes a time in proportion to the
//! objects and what they follow: the groups of objects that reach each other are computed without a proof and then
//! tested (`specs/Groups`), and where the test failed, each object would be asked by itself.
#![tactic(auto)]

mod asking;
mod circles;
mod grouping;
mod groups;
mod tables;

pub use circles::{Follower, least_line};
