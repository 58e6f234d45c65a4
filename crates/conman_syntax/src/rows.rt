//! The call that reads a line.
ghost use Rattle.std.specs.Prelude.{◌≡◌, ◌↔◌, ℕ, IfOk, length};
ghost use Rattle.std.specs.Result.{IsErrOf};
ghost use Rattle.conman_syntax.specs.Answers.{Gives};
ghost use Rattle.conman_syntax.specs.Fit.{IsFitLine};
ghost use Rattle.conman_syntax.specs.Rows as spec;
ghost use Rattle.conman_syntax.specs.Rows.{HadMemory, IsLine, IsUnknown, HasBadArgument, HasTooMany, due_line};
ghost use Rattle.conman_syntax.specs.declared.faults.CommandFault.TheVariants as fault;
ghost use Rattle.conman_syntax.specs.declared.lines.Line as lines;

use crate::CommandFault;
use crate::arguments::{command_word, without_noask};
use crate::faults::{ArgumentFault, ended};
use crate::heads::{Command, Head, head_of};
use crate::lines::Line;
use crate::object_rows::{add_dep, alt_pri, cancel, confirm, del_dep, kill, release, rerun};
use crate::station_rows::{
    fence, j_next_plan, last_pattern, limit, one_name, reply, resource, submit, switch_mgr,
};
use std::alloc::Global;

/// The line that a text is, with its parts. A `;noask` at the end of the text is dropped, once.
///
/// Unless memory runs out, the answer is exactly the one that is due: UnknownCommand where the first word is no
/// command's, BadArgument with the number of the first argument that is missing or not of its form, and TooMany where
/// all arguments are good and a further one follows. What takes no memory comes first: UnknownCommand never yields to
/// NoMemory.
///
/// The parts are as short as their forms demand: a name has at most 40 bytes and a quoted text at most 4,096. A pattern
/// has as many as the line has room for. The day of `jnextplan` is one from 01/01/1970 to 12/31/9999.
pub fn parse_command(alloc: Global, text: &str) -> Result<Line, CommandFault>
    ensures answer { HadMemory result → result ≡ due_line text.now }
    ensures line { HadMemory result → (line : lines.Line) → (result ≡ Ok line) ↔ IsLine text.now line }
    ensures unknown { IsErrOf result fault.UnknownCommand ↔ IsUnknown text.now }
    ensures bad_argument { HadMemory result → (n : ℕ) →
        IsErrOf result (fault.BadArgument n) ↔ HasBadArgument text.now n }
    ensures too_many { HadMemory result → IsErrOf result fault.TooMany ↔ HasTooMany text.now }
    ensures fit { IfOk result (IsFitLine (length text.now)) }
{
    read(alloc, text)
}

/// The row of the line's command word.
#[tactic(auto, unfolding(crate::specs::Rows::due_line))]
fn read(alloc: Global, text: &str) -> Result<Line, CommandFault>
    ensures answer { HadMemory result → result ≡ due_line text.now }
    ensures unknown { IsErrOf result fault.UnknownCommand ↔ IsUnknown text.now }
{
    let (word, left) = command_word(without_noask(text));
    match head_of(word) {
        Some(head) => Ok(row(alloc, head, left)?),
        None => Err(CommandFault::UnknownCommand),
    }
}

#[tactic(auto, unfolding(crate::specs::Rows::row))]
fn row(alloc: Global, head: Head, left: &str) -> Result<Line, ArgumentFault>
    ensures { Gives result (spec.row head.command head.what left.now) }
{
    match head.command {
        Command::AddDep => add_dep(alloc, head.what, left),
        Command::DelDep => del_dep(alloc, head.what, left),
        Command::Release => release(alloc, head.what, left),
        Command::AltPri => alt_pri(alloc, left),
        Command::Cancel => cancel(alloc, head.what, left),
        Command::Confirm => confirm(alloc, left),
        Command::Kill => kill(alloc, left),
        Command::Rerun => rerun(alloc, left),
        Command::Fence => fence(alloc, left),
        Command::Limit => limit(alloc, head.what, left),
        Command::Resource => resource(alloc, left),
        Command::Reply => reply(alloc, left),
        Command::Start => Ok(Line::Start(one_name(alloc, left)?)),
        Command::Stop => Ok(Line::Stop(one_name(alloc, left)?)),
        Command::Submit => submit(alloc, head.what, left),
        Command::SwitchMgr => switch_mgr(alloc, left),
        Command::ShowJobs => Ok(Line::ShowJobs(last_pattern(alloc, left)?)),
        Command::ShowSchedules => Ok(Line::ShowSchedules(last_pattern(alloc, left)?)),
        Command::ShowCpus => Ok(Line::ShowCpus(last_pattern(alloc, left)?)),
        Command::ShowPrompts => Ok(Line::ShowPrompts(last_pattern(alloc, left)?)),
        Command::ShowResources => Ok(Line::ShowResources(last_pattern(alloc, left)?)),
        Command::Link => Ok(Line::Link(one_name(alloc, left)?)),
        Command::Unlink => Ok(Line::Unlink(one_name(alloc, left)?)),
        Command::Shutdown => ended(left, Line::Shutdown),
        Command::JNextPlan => j_next_plan(left),
    }
}
