//! Canonical text of composer definitions is read back.
//!
//! Where the tokens of a text are definitions, their canonical text has tokens too, and these are definitions again, which
//! are the normal form of the first but for their lines. `specs/Returns.antt` says so; `definitions_are_read_back` is the
//! law.
//!
//! `specs/Written.antt` says what definitions that are read have in common: names are names, numbers are small, clauses
//! that stand once stand once. The normal form of such definitions is of the same kind (`proofs/Normals.antt`), and each
//! of the kind is read back, production by production, from its line as it is printed.
#![tactic(auto)]

mod laws;

pub use laws::definitions_are_read_back;
