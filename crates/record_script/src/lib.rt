//! Records as they are read: a network, plans, and steps with their lines.
//!
//! `read_script` gives what a text means, or its lowest faulty line with the first kind of its faults. The rows of the
//! text's lines are those of `record_rows`, their places and faults those of `record_faults`. What rows without faults
//! mean is told here: the numbers of the workstations, resources and prompts that they name (`specs/Numbers`), the
//! network (`specs/Networks`), the plans (`specs/Plans`) and the steps (`specs/Steps`). Both answers of the call are the
//! definition `specs/Scripts::read_of`.
//!
//! The line of definitions in a record is refused as `NotBuilt`. What the steps of such a record mean is told here too, by
//! the names of its workstations (`steps_by`), for those who read the definitions.
#![tactic(auto)]

mod deps;
mod jobs;
mod names;
mod nets;
mod numbers;
mod plans;
mod reading;
mod scripts;
mod spans;
mod steps;
mod values;

pub use reading::{ScriptFault, read_script};
pub use record_faults::ScriptKind;
pub use scripts::{OneStep, Plans, Script, ScriptStep, ScriptSteps, StepForm};
pub use steps::steps_by;
