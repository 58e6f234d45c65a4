//! Asks the core of the scheduler about nights that are given as entries, and tells what it answers. The program `probes`
//! writes it, for the cases of the repository; it serves nothing else, and nothing is promised of it.
//!
//! The input has lines. Those of a network come first, then `$QUESTIONS`, then the questions in their order. `$NIGHT`
//! begins anew. A network has the lines `ws NAME HOP MANAGER FULL`, `res W NAME TOTAL`, `prompt NAME TEXT` and
//! `carry WORD`, with workstations by their numbers. A question is a word, then numbers, then with some questions a
//! text, or entries as digits in base 16. The line `entry DIGITS` is taken and not answered. `trials/entries.py` writes
//! such an input from lines that are easier to read.
#![tactic(auto)]

mod asked;
mod audits;
mod decisions;
mod entries;
mod facts;
mod follows;
mod groups;
mod locals;
mod mails;
mod nets;
mod nights;
mod nodes;
mod orders;
mod outs;
mod probes;
mod questions;
mod symphonies;
mod texts;
mod told;
mod views;
mod walks;
mod worlds;

pub use outs::Out;
use probes::Probe;
use std::alloc::Global;

/// What is answered to a whole input.
pub fn answers(alloc: Global, text: &str) -> Out {
    let mut out = Out::new(alloc);
    let mut probe = Probe::new(alloc);
    for line in text.split('\n') {
        probe.read(&mut out, line);
    }
    out
}
