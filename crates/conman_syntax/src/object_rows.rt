//! The rows of the table that are on a job or a stream, each of what is left of the line behind its command word.
ghost use Rattle.conman_syntax.specs.Answers.{Gives};
ghost use Rattle.conman_syntax.specs.Rows as spec;

use crate::arguments::take_argument;
use crate::dependencies::dependency;
use crate::faults::{ArgumentFault, ended};
use crate::heads::What;
use crate::lines::Line;
use crate::references::{job, job_or_stream, object};
use crate::values::priority;
use std::alloc::Global;

#[tactic(auto, unfolding(crate::specs::Rows::add_dep))]
pub fn add_dep(alloc: Global, what: Option<What>, left: &str) -> Result<Line, ArgumentFault>
    ensures { Gives result (spec.add_dep what left.now) }
{
    let (argument, left) = take_argument(left, ' ');
    let Some(object) = object(alloc, what, argument)? else {
        return Err(ArgumentFault::BadArgument(1));
    };
    Ok(Line::AddDep(object, dependency(alloc, left)?))
}

#[tactic(auto, unfolding(crate::specs::Rows::del_dep))]
pub fn del_dep(alloc: Global, what: Option<What>, left: &str) -> Result<Line, ArgumentFault>
    ensures { Gives result (spec.del_dep what left.now) }
{
    let (argument, left) = take_argument(left, ' ');
    let Some(object) = object(alloc, what, argument)? else {
        return Err(ArgumentFault::BadArgument(1));
    };
    Ok(Line::DelDep(object, dependency(alloc, left)?))
}

#[tactic(auto, unfolding(crate::specs::Rows::release))]
pub fn release(alloc: Global, what: Option<What>, left: &str) -> Result<Line, ArgumentFault>
    ensures { Gives result (spec.release what left.now) }
{
    let (argument, left) = take_argument(left, ' ');
    let Some(object) = object(alloc, what, argument)? else {
        return Err(ArgumentFault::BadArgument(1));
    };
    ended(left, Line::Release(object))
}

#[tactic(auto, unfolding(crate::specs::Rows::cancel))]
pub fn cancel(alloc: Global, what: Option<What>, left: &str) -> Result<Line, ArgumentFault>
    ensures { Gives result (spec.cancel what left.now) }
{
    let (argument, left) = take_argument(left, ' ');
    let Some(object) = object(alloc, what, argument)? else {
        return Err(ArgumentFault::BadArgument(1));
    };
    ended(left, Line::Cancel(object))
}

#[tactic(auto, unfolding(crate::specs::Rows::alt_pri))]
pub fn alt_pri(alloc: Global, left: &str) -> Result<Line, ArgumentFault>
    ensures { Gives result (spec.alt_pri left.now) }
{
    let (argument, left) = take_argument(left, ' ');
    let Some(object) = job_or_stream(alloc, argument)? else {
        return Err(ArgumentFault::BadArgument(1));
    };
    let (argument, left) = take_argument(left, ';');
    let Some(priority) = priority(argument) else {
        return Err(ArgumentFault::BadArgument(2));
    };
    ended(left, Line::AltPri(object, priority))
}

#[tactic(auto, unfolding(crate::specs::Rows::confirm))]
pub fn confirm(alloc: Global, left: &str) -> Result<Line, ArgumentFault>
    ensures { Gives result (spec.confirm left.now) }
{
    let (argument, left) = take_argument(left, ' ');
    let Some(job) = job(alloc, argument)? else {
        return Err(ArgumentFault::BadArgument(1));
    };
    let (argument, left) = take_argument(left, ';');
    if argument != "succ" {
        return Err(ArgumentFault::BadArgument(2));
    }
    ended(left, Line::Confirm(job))
}

#[tactic(auto, unfolding(crate::specs::Rows::kill))]
pub fn kill(alloc: Global, left: &str) -> Result<Line, ArgumentFault>
    ensures { Gives result (spec.kill left.now) }
{
    let (argument, left) = take_argument(left, ' ');
    let Some(job) = job(alloc, argument)? else {
        return Err(ArgumentFault::BadArgument(1));
    };
    ended(left, Line::Kill(job))
}

#[tactic(auto, unfolding(crate::specs::Rows::rerun))]
pub fn rerun(alloc: Global, left: &str) -> Result<Line, ArgumentFault>
    ensures { Gives result (spec.rerun left.now) }
{
    let (argument, left) = take_argument(left, ' ');
    let Some(job) = job(alloc, argument)? else {
        return Err(ArgumentFault::BadArgument(1));
    };
    ended(left, Line::Rerun(job))
}
