//! What a workstation does in a turn: which rule applies first, to what, and the body of the entry that it keeps.
//!
//! `turn_choice` names the rule and its object, and `turn_body` gives the body, both as `model::specs::Turn` has them,
//! in the view of the entries that an `Owners` took. Both are generic over `Readiness`, which knows the best job and the
//! lowest streams to release and to end, and stand on its law: the value stands for the entries taken. The rules come in
//! the order of `Choice`, and within a rule the lowest object comes first. `is_clock_due` tells whether the first rule
//! applies, the only one that goes by the reading.
//!
//! The network that is handed in is the one that stands at the node, after the switches of managers that the master
//! obeyed among the entries taken.
//!
//! What that costs: each fact of an `Owners` is a look-up or two. The rule of the clock asks for the dependencies of
//! each object of the workstation that has a time, that of losses for its open launches, that of answers for the orders
//! of each issuer; the others are those of `dependencies` and of the `Readiness`. A rule is only asked where no rule
//! before it applies. The counts of an entry are asked for once for each workstation in it.
#![tactic(auto)]

mod answers;
mod bodies;
mod choices;
mod clocks;
mod faults;
mod issuers;
mod losses;
mod witnesses;

pub use bodies::turn_body;
pub use choices::{Choice, turn_choice};
pub use clocks::is_clock_due;
pub use faults::TurnFault;
