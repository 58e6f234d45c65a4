//! Places in a list, in groups.
//!
//! `Groups` keeps for each group, by its number, places of some list, in ascending order. Whoever keeps a set of items
//! by their places asks for one group without a walk over the others. A contract sees the places as codes: the number
//! of the group times 2^32, plus the place. `specs/Codes` defines what the code of a place and the codes of a group
//! are, and `proofs/Finding` has what sets stand on: where a group has at least the places of the items that pass a
//! test, what passes among the items at its places is what passes in the whole list, in its order.
#![tactic(auto)]

mod codes;

pub use codes::{Groups, place_in};
