//! The canonical text of definitions means what was written.
//!
//! Definitions with one normal form have a fault together or have none, whatever their lines are, and give the same
//! network, run dates and drafts. The canonical text of definitions that were read is read again, and what is read has
//! their normal form. So both texts mean the same. `src/laws.rt` has the laws.
//!
//! `proofs/Forms.antt` lists what definitions and their normal form share, and each file above it goes through one
//! part: `Items`, `Streams`, `Conditions`, `Circles` for faults; `Networks`, `Runs`, `Plans`, `Drafts` for what is
//! given. `Printed` has that the canonical text is UTF-8, line by line, and `Texts` what is read from it.
#![tactic(auto)]

mod laws;

pub use laws::{
    canonical_texts_mean_the_same, one_form_gives_the_same, one_form_has_the_same_drafts,
    one_form_is_faultless,
};
