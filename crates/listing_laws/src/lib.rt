//! The listing of a day is read back to its network and its drafts.
//!
//! What `plan_listing` prints of a network and drafts, with `$STEPS` and a line `next` behind it, is a record of that network,
//! but for FULLSTATUS of managers, with those drafts as its one plan. `specs/Listables.antt` says what such drafts have, and
//! `specs/ListingReturns.antt` what reading back is. `printed_listings_are_read_back` is the law.
#![tactic(auto)]

mod laws;

pub use laws::printed_listings_are_read_back;
