//! The words that ask for a service: `node NAME TURNS` serves a workstation of the definitions over its disk, and
//! `ask NAME COMMAND` asks one a command line.
//!
//! Which words ask for what is `specs/Forms`. `serve` reads the definitions from the input, finds the workstation, and does
//! what was asked. What that came to, from the words on and whatever was said of it, is `specs/Services`; the statuses and
//! texts of all ends are `specs/Ends`.
#![tactic(auto)]

mod ends;
mod forms;
mod reading;
mod serving;

pub use forms::{Service, asked_service};
pub use serving::{Ended, serve};
