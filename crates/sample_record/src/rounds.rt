//! The steps of a sample.
ghost use Rattle.std.specs.Prelude.{◌≡◌, ◌≤◌, ◌++◌, OnOk, flat_map};
ghost use Rattle.sample_record.specs.Agents.{agents};
ghost use Rattle.sample_record.specs.Rounds as spec;

use crate::agents::{AGENTS, write_each};
use std::io::{self, Write};

/// Writes the steps of a record with so many jobs.
#[tactic(auto, unfolding(crate::specs::Rounds::steps_part))]
pub(crate) fn write_steps(out: &mut Vec<u8>, jobs: u32) -> io::Result<()>
    requires { jobs ≤ 2000 }
    ensures { OnOk result (out.new.items ≡ out.old.items ++ spec.steps_part jobs) }
{
    write!(out, "$STEPS\nnext\n")?;
    write_links(out)?;
    for round in 1..2 * jobs + 21 {
        write_round(out, round)?;
    }
    Ok(())
}

fn write_links(out: &mut Vec<u8>) -> io::Result<()>
    ensures { OnOk result (out.new.items ≡ out.old.items ++ flat_map spec.link_lines agents) }
{
    for agent in &AGENTS {
        write!(out, "link M A{agent}\nlink A{agent} M\n")?;
    }
    Ok(())
}

#[tactic(auto, unfolding(crate::specs::Rounds::round_part))]
fn write_round(out: &mut Vec<u8>, round: u32) -> io::Result<()>
    ensures { OnOk result (out.new.items ≡ out.old.items ++ spec.round_part round) }
{
    write!(out, "turn M {round}\n")?;
    write_turns(out, round)?;
    write_each(out, "reap A", " 0\n")?;
    write_each(out, "flow A", " M\n")?;
    write_each(out, "flow M A", "\n")
}

fn write_turns(out: &mut Vec<u8>, round: u32) -> io::Result<()>
    ensures { OnOk result (out.new.items ≡ out.old.items ++ flat_map (spec.turn_line round) agents) }
{
    for agent in &AGENTS {
        write!(out, "turn A{agent} {round}\n")?;
    }
    Ok(())
}
