//! What the names of definitions stand for.
//!
//! A `Names` is made of definitions once, and contracts see it as these. It tells which workstation, domain, calendar,
//! prompt, resource, job, stream or entry a name stands for, which is the first of its kind with that name, on which
//! workstation a stream or an entry is, and what a FOLLOWS means. All of this is defined in `specs/`. The tables of names
//! are indexes, so that no question takes a walk.
#![tactic(auto)]

mod firsts;
mod keys;
mod kinds;
mod name_tables;
mod streams;
mod targets;

pub use name_tables::Names;
pub use targets::Target;
