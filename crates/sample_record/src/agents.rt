//! Lines that stand once for each agent.
ghost use Rattle.std.specs.Prelude.{◌≡◌, ◌++◌, OnOk};
ghost use Rattle.sample_record.specs.Agents.{each};

use std::io::{self, Write};

/// The numbers of the agents.
pub(crate) const AGENTS: [u32; 4] = [1, 2, 3, 4];

/// Writes these texts around the number of each agent.
#[tactic(auto, unfolding(crate::specs::Agents::each))]
pub(crate) fn write_each(out: &mut Vec<u8>, before: &str, behind: &str) -> io::Result<()>
    ensures { OnOk result (out.new.items ≡ out.old.items ++ each before.now behind.now) }
{
    for agent in &AGENTS {
        write!(out, "{before}{agent}{behind}")?;
    }
    Ok(())
}
