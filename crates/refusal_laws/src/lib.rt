//! What no step of a replay is refused for.
//!
//! A step of the world is refused for the first fault of its node that applies, or by a limit. Two of these faults come
//! from the step itself alone: it names a workstation outside the network, or takes a plan at another workstation than the
//! master. What a packet names was tested when it was sent. Three more, a spent place, run or number, come at 4,294,967,295
//! only, and a replay, which takes 200,000 steps at most, ends long before. The limits that are counted over the steps are
//! three. So a replay whose lines name workstations of the network stops for none of all this.
#![tactic(auto)]

pub mod naming;
pub mod spending;
