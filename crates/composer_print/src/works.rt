//! What a job runs.
ghost use Rattle.std.specs.Prelude.{◌≡◌, ◌++◌, OnOk};
ghost use Rattle.composer_print.specs.Works as spec;

use base_types::{Recovery, Text, Work};
use composer_parser::WorkDef;
use std::io::{self, Write};
use syntax::write_quoted;

#[tactic(auto, unfolding(crate::specs::Works::command_text))]
fn write_command(out: &mut Vec<u8>, work: &Work) -> io::Result<()>
    ensures { OnOk result (out.new.items ≡ out.old.items ++ spec.command_text work.now) }
{
    match work {
        Work::Script(file) => {
            write!(out, " SCRIPTNAME ")?;
            write_quoted(out, file)?;
            Ok(())
        }
        Work::Command(line) => {
            write!(out, " DOCOMMAND ")?;
            write_quoted(out, line)
        }
    }
}

#[tactic(auto, unfolding(crate::specs::Works::logon_text))]
fn write_logon(out: &mut Vec<u8>, logon: &Option<Text>) -> io::Result<()>
    ensures { OnOk result (out.new.items ≡ out.old.items ++ spec.logon_text logon.now) }
{
    match logon {
        None => Ok(()),
        Some(name) => {
            write!(out, " STREAMLOGON ")?;
            write_quoted(out, name)
        }
    }
}

#[tactic(auto, unfolding(crate::specs::Works::cond_text))]
fn write_cond(out: &mut Vec<u8>, cond: &Option<Text>) -> io::Result<()>
    ensures { OnOk result (out.new.items ≡ out.old.items ++ spec.cond_text cond.now) }
{
    match cond {
        None => Ok(()),
        Some(text) => {
            write!(out, " RCCONDSUCC ")?;
            write_quoted(out, text)
        }
    }
}

#[tactic(auto, unfolding(crate::specs::Works::recovery_text))]
fn write_recovery(out: &mut Vec<u8>, recovery: Recovery) -> io::Result<()>
    ensures { OnOk result (out.new.items ≡ out.old.items ++ spec.recovery_text recovery) }
{
    match recovery {
        Recovery::Stop => Ok(()),
        Recovery::Continue => write!(out, " RECOVERY CONTINUE"),
        Recovery::Rerun => write!(out, " RECOVERY RERUN"),
    }
}

/// Writes what a job runs, behind what stands before it on its line.
#[tactic(auto, unfolding(crate::specs::Works::work_text))]
pub(crate) fn write_work(out: &mut Vec<u8>, work: &WorkDef) -> io::Result<()>
    ensures { OnOk result (out.new.items ≡ out.old.items ++ spec.work_text work.now) }
{
    write_command(out, &work.work)?;
    write_logon(out, &work.logon)?;
    write_cond(out, &work.cond)?;
    write_recovery(out, work.recovery)
}
