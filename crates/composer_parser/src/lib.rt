//! Composer definitions read from their tokens.
//!
//! The grammar is one value, `specs/Composer.antt` with the productions that it is made of; `specs/Grammars.antt` says
//! which tokens it relates to which definitions. `parse` gives exactly these, and at any other tokens the first fault, by
//! `specs/Faults.antt`.
//!
//! The grammar is proved to be decided by the next token at each place (`proofs/Sound.antt`), so no tokens are two
//! definitions (`tokens_have_one_reading`). Each reader has one clause: it answers what reading its production gives.
//! What stands in lists is read by its type (`pieces`), and one loop reads all that stand one behind the other (`gathering`).
#![tactic(auto)]

mod batches;
mod clause_forms;
mod clauses;
mod copies;
mod definitions;
mod entries;
mod faults;
mod flags;
mod gathering;
mod groups;
mod items;
mod laws;
mod lists;
mod moments;
mod ons;
mod options;
mod parsing;
mod parts;
mod pieces;
mod places;
mod rules;
mod schedules;
mod scopes;
mod spells;
mod statements;
mod stations;
mod stops;
mod streams;
mod words;
mod works;

pub use clauses::{Clause, Need, Pred, PredPart, PromptItem};
pub use definitions::{CalendarDef, CpuDef, Defs, DomainDef, JobDef, Lined, ResourceDef, WorkDef};
pub use faults::SyntaxFault;
pub use laws::tokens_have_one_reading;
pub use parsing::parse;
pub use schedules::{
    CycleDef, EntryDef, FreeDef, Offset, OffsetUnit, OnDef, OnItem, ScheduleDef, Shift,
};
