//! Follows scripts that call `tws` over objects in memory, for the cases of `node` and `ask`.
//!
//! The program `probes` reads the script, and writes what is told. `scripts` has the table of lines, and `parts` that of
//! what is told. Nothing is promised of it; the cases tell what must be.
#![tactic(auto)]

mod entries;
mod objects;
mod parts;
mod scripts;
mod stages;
mod texts;

use scripts::follow;
use stages::Stage;
use std::alloc::Global;
pub use texts::Told;

/// The status behind a line that is not understood.
pub const NOT_UNDERSTOOD: u8 = 100;

const NO_MEMORY: u8 = 101;

/// Follows a script to its end, or to the first line that is not understood, and gives the status: 0 at the end, 101 for
/// want of memory.
pub fn followed(alloc: Global, script: &str, out: &mut Told) -> u8 {
    let Some(mut stage) = Stage::new(alloc) else {
        return NO_MEMORY;
    };
    if !follow(&mut stage, alloc, script, out) {
        return NOT_UNDERSTOOD;
    }
    if out.is_whole() { 0 } else { NO_MEMORY }
}
