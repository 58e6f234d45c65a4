//! The rows of the table that are on a workstation, a resource, a prompt or the network, each of what is left of the
//! line behind its command word.
ghost use Rattle.std.specs.Prelude.{◌≡◌, IfOk};
ghost use Rattle.conman_syntax.specs.Answers.{Gives};
ghost use Rattle.conman_syntax.specs.Arguments.{argument_behind};
ghost use Rattle.conman_syntax.specs.Rows as spec;
ghost use Rattle.conman_syntax.specs.declared.references.ReplyTarget.TheVariants as replied;

use crate::arguments::take_argument;
use crate::faults::{ArgumentFault, ended};
use crate::heads::What;
use crate::lines::{Line, ObjRef};
use crate::references::{
    LimitTarget, ReplyTarget, cut, limit_target, reply_target, resource_names, work,
};
use crate::values::{number_u16, pattern, priority, yes};
use base_types::{NoMemory, Text};
use calendars::read_date;
use std::alloc::Global;
use syntax::{is, name};

#[tactic(auto, unfolding(crate::specs::Rows::fence))]
pub fn fence(alloc: Global, left: &str) -> Result<Line, ArgumentFault>
    ensures { Gives result (spec.fence left.now) }
{
    let (argument, left) = take_argument(left, ' ');
    let Some(ws) = name(alloc, argument)? else {
        return Err(ArgumentFault::BadArgument(1));
    };
    let (argument, left) = take_argument(left, ';');
    let Some(priority) = priority(argument) else {
        return Err(ArgumentFault::BadArgument(2));
    };
    ended(left, Line::Fence(ws, priority))
}

#[tactic(auto, unfolding(crate::specs::Rows::limit))]
pub fn limit(alloc: Global, what: Option<What>, left: &str) -> Result<Line, ArgumentFault>
    ensures { Gives result (spec.limit what left.now) }
{
    let (argument, left) = take_argument(left, ' ');
    let Some(whose) = limit_target(alloc, what, argument)? else {
        return Err(ArgumentFault::BadArgument(1));
    };
    let (argument, left) = take_argument(left, ';');
    let Some(n) = number_u16(argument) else {
        return Err(ArgumentFault::BadArgument(2));
    };
    ended(left, limit_line(whose, n))
}

fn limit_line(whose: LimitTarget, n: u16) -> Line
    ensures { result ≡ spec.limit_line whose n }
{
    match whose {
        LimitTarget::Cpu(ws) => Line::CpuLimit(ws, n),
        LimitTarget::Stream(stream) => Line::StreamLimit(stream, n),
    }
}

#[tactic(auto, unfolding(crate::specs::Rows::resource))]
pub fn resource(alloc: Global, left: &str) -> Result<Line, ArgumentFault>
    ensures { Gives result (spec.resource left.now) }
{
    let (argument, left) = take_argument(left, ' ');
    let Some((ws, called)) = resource_names(alloc, argument)? else {
        return Err(ArgumentFault::BadArgument(1));
    };
    let (argument, left) = take_argument(left, ';');
    let Some(n) = number_u16(argument) else {
        return Err(ArgumentFault::BadArgument(2));
    };
    ended(left, Line::Resource(ws, called, n))
}

#[tactic(auto, unfolding(crate::specs::Rows::reply))]
pub fn reply(alloc: Global, left: &str) -> Result<Line, ArgumentFault>
    ensures { Gives result (spec.reply left.now) }
{
    let (argument, left) = take_argument(left, ' ');
    let Some(target) = reply_target(alloc, argument)? else {
        return Err(ArgumentFault::BadArgument(1));
    };
    reply_to(target, left)
}

fn reply_to(target: ReplyTarget, left: &str) -> Result<Line, ArgumentFault>
    ensures { Gives result (spec.reply_to target left.now) }
{
    match target {
        ReplyTarget::Prompt(name) => reply_global(name, left),
        ReplyTarget::Own(object) => reply_own(object, left),
    }
}

fn reply_global(name: Text, left: &str) -> Result<Line, ArgumentFault>
    ensures { Gives result (spec.reply_to (replied.Prompt name) left.now) }
{
    let (argument, left) = take_argument(left, ';');
    let Some(yes) = yes(argument) else {
        return Err(ArgumentFault::BadArgument(2));
    };
    ended(left, Line::ReplyGlobal(name, yes))
}

fn reply_own(object: ObjRef, left: &str) -> Result<Line, ArgumentFault>
    ensures { Gives result (spec.reply_to (replied.Own object) left.now) }
{
    let (argument, left) = take_argument(left, ';');
    let Some(i) = number_u16(argument) else {
        return Err(ArgumentFault::BadArgument(2));
    };
    let (argument, left) = take_argument(left, ';');
    let Some(yes) = yes(argument) else {
        return Err(ArgumentFault::BadArgument(3));
    };
    ended(left, Line::ReplyOwn(object, i, yes))
}

/// The name that the line has and nothing else.
#[tactic(auto, unfolding(crate::specs::Rows::one_name))]
pub fn one_name(alloc: Global, left: &str) -> Result<Text, ArgumentFault>
    ensures { Gives result (spec.one_name left.now) }
{
    let (argument, left) = take_argument(left, ' ');
    let Some(name) = name(alloc, argument)? else {
        return Err(ArgumentFault::BadArgument(1));
    };
    ended(left, name)
}

#[tactic(auto, unfolding(crate::specs::Rows::submit))]
pub fn submit(alloc: Global, what: Option<What>, left: &str) -> Result<Line, ArgumentFault>
    ensures { Gives result (spec.submit what left.now) }
{
    let (argument, left) = take_argument(left, ' ');
    let Some((ws, text)) = work(alloc, what, argument)? else {
        return Err(ArgumentFault::BadArgument(1));
    };
    let (alias, priority) = behind_work(alloc, left)?;
    Ok(Line::Submit(ws, text, alias, priority))
}

/// The alias and the priority, each where it is there.
fn behind_work(alloc: Global, left: &str) -> Result<(Option<Text>, Option<u8>), ArgumentFault>
    ensures { Gives result (spec.behind_work left.now (spec.alias_of (argument_behind 59 left.now))) }
{
    let (argument, behind) = take_argument(left, ';');
    match alias(alloc, argument)? {
        None => Ok((None, last_priority(2, left)?)),
        Some(alias) => Ok((Some(alias), last_priority(3, behind)?)),
    }
}

#[tactic(auto, unfolding(crate::specs::Rows::alias_of))]
fn alias(alloc: Global, argument: &str) -> Result<Option<Text>, NoMemory>
    ensures { IfOk result (λ o. o ≡ spec.alias_of argument.now) }
{
    let (key, value) = cut(argument, '=');
    if !is(key, "alias") {
        return Ok(None);
    }
    name(alloc, value)
}

/// The priority that the last argument, of this number, says. None where nothing is left.
#[tactic(auto, unfolding(crate::specs::Rows::last_priority))]
fn last_priority(number: u32, left: &str) -> Result<Option<u8>, ArgumentFault>
    ensures { Gives result (spec.last_priority number left.now) }
{
    if left.is_empty() {
        return Ok(None);
    }
    let (argument, left) = take_argument(left, ';');
    let Some(priority) = priority_part(argument) else {
        return Err(ArgumentFault::BadArgument(number));
    };
    ended(left, Some(priority))
}

#[tactic(auto, unfolding(crate::specs::Rows::priority_part_of))]
fn priority_part(argument: &str) -> Option<u8>
    ensures { result ≡ spec.priority_part_of argument.now }
{
    let (key, value) = cut(argument, '=');
    if !is(key, "priority") {
        return None;
    }
    priority(value)
}

#[tactic(auto, unfolding(crate::specs::Rows::switch_mgr))]
pub fn switch_mgr(alloc: Global, left: &str) -> Result<Line, ArgumentFault>
    ensures { Gives result (spec.switch_mgr left.now) }
{
    let (argument, left) = take_argument(left, ' ');
    let Some(domain) = name(alloc, argument)? else {
        return Err(ArgumentFault::BadArgument(1));
    };
    let (argument, left) = take_argument(left, ';');
    let Some(ws) = name(alloc, argument)? else {
        return Err(ArgumentFault::BadArgument(2));
    };
    ended(left, Line::SwitchMgr(domain, ws))
}

/// The pattern that the line has and nothing else. None where no blank follows the command word.
#[tactic(auto, unfolding(crate::specs::Rows::last_pattern))]
pub fn last_pattern(alloc: Global, left: &str) -> Result<Option<Text>, ArgumentFault>
    ensures { Gives result (spec.last_pattern left.now) }
{
    if !left.starts_with(' ') {
        return ended(left, None);
    }
    let (argument, left) = take_argument(left, ' ');
    let Some(pattern) = pattern(alloc, argument)? else {
        return Err(ArgumentFault::BadArgument(1));
    };
    ended(left, Some(pattern))
}

#[tactic(auto, unfolding(crate::specs::Rows::j_next_plan))]
pub fn j_next_plan(left: &str) -> Result<Line, ArgumentFault>
    ensures { Gives result (spec.j_next_plan left.now) }
{
    let (argument, left) = take_argument(left, ' ');
    let day = read_date(argument).ok_or(ArgumentFault::BadArgument(1))?;
    ended(left, Line::JNextPlan(day))
}
