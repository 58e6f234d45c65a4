//! Lemmas that several crates need, and that are about nothing of this project: Booleans, numbers, options, results,
//! lists, texts as bytes, and maps whose keys are names.
//!
//! It has no code. A crate whose proofs need such a lemma cites it from `proofs/`, where each stands once, under one name.
#![tactic(auto)]
