//! The drafts of a day can be listed and read back.
//!
//! Definitions that were read, and have no fault, name workstations, resources and prompts of their network alone. Their
//! streams are different by workstation and name, and the entries of a stream by their names. Texts stand on one line,
//! numbers are within their ranges, and no object has more than 64 dependencies. So the drafts that they give for a day are
//! what `listing_laws` asks for. `drafts_are_listable` is the law.
#![tactic(auto)]

mod laws;

pub use laws::drafts_are_listable;
