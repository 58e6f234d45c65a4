//! A dependency as the last arguments of a line.
ghost use Rattle.std.specs.Prelude.{◌≡◌, IfOk};
ghost use Rattle.conman_syntax.specs.Answers.{Gives};
ghost use Rattle.conman_syntax.specs.Dependencies.{dependency_of, until_from, on_until_of, dep_by_key, needs_of};
ghost use Rattle.conman_syntax.specs.Dependencies.{prompt_of, follows_from};

use crate::arguments::take_argument;
use crate::faults::{ArgumentFault, ended};
use crate::lines::{DepRef, ObjRef};
use crate::references::{cut, job_or_stream, resource_names};
use crate::values::{number_u16, passed};
use base_types::{NoMemory, OnUntil};
use std::alloc::Global;
use syntax::{is, name, number_u64, quoted};

/// The dependency that argument 2 is, or arguments 2 and 3, with nothing behind it.
#[tactic(auto, unfolding(crate::specs::Dependencies::dependency_of))]
pub fn dependency(alloc: Global, left: &str) -> Result<DepRef, ArgumentFault>
    ensures { Gives result (dependency_of left.now) }
{
    let (argument, rest) = take_argument(left, ';');
    let (key, value) = cut(argument, '=');
    if is(key, "until") {
        return until(left);
    }
    let Some(dep) = dep_by_key(alloc, key, value)? else {
        return Err(ArgumentFault::BadArgument(2));
    };
    ended(rest, dep)
}

/// `until=T`, and what comes when the time has passed.
#[tactic(auto, unfolding(crate::specs::Dependencies::until_from))]
fn until(left: &str) -> Result<DepRef, ArgumentFault>
    ensures { Gives result (until_from left.now) }
{
    let (argument, left) = take_argument(left, ';');
    let Some(time) = number_u64(cut(argument, '=').1) else {
        return Err(ArgumentFault::BadArgument(2));
    };
    if left.is_empty() {
        return Ok(DepRef::Until(time, OnUntil::Suppr));
    }
    let (argument, left) = take_argument(left, ';');
    let Some(passed) = on_until(argument) else {
        return Err(ArgumentFault::BadArgument(3));
    };
    ended(left, DepRef::Until(time, passed))
}

#[tactic(auto, unfolding(crate::specs::Dependencies::on_until_of))]
fn on_until(argument: &str) -> Option<OnUntil>
    ensures { result ≡ on_until_of argument.now }
{
    let (key, value) = cut(argument, '=');
    if !is(key, "onuntil") {
        return None;
    }
    passed(value)
}

#[tactic(auto, unfolding(crate::specs::Dependencies::dep_by_key))]
fn dep_by_key(alloc: Global, key: &str, value: &str) -> Result<Option<DepRef>, NoMemory>
    ensures { IfOk result (λ o. o ≡ dep_by_key key.now value.now) }
{
    if is(key, "follows") {
        Ok(job_or_stream(alloc, value)?.map(follows))
    } else if is(key, "needs") {
        needs(alloc, value)
    } else if is(key, "prompt") {
        prompt(alloc, value)
    } else if is(key, "at") {
        Ok(number_u64(value).map(DepRef::At))
    } else {
        Ok(None)
    }
}

fn follows(object: ObjRef) -> DepRef
    ensures { result ≡ follows_from object }
{
    match object {
        ObjRef::Job(job) => DepRef::FollowsJob(job),
        ObjRef::Stream(stream) => DepRef::FollowsStream(stream),
    }
}

/// `N W#R`.
#[tactic(auto, unfolding(crate::specs::Dependencies::needs_of))]
fn needs(alloc: Global, value: &str) -> Result<Option<DepRef>, NoMemory>
    ensures { IfOk result (λ o. o ≡ needs_of value.now) }
{
    let (units, names) = cut(value, ' ');
    let Some(units) = number_u16(units) else {
        return Ok(None);
    };
    let Some((ws, called)) = resource_names(alloc, names)? else {
        return Ok(None);
    };
    Ok(Some(DepRef::Needs(units, ws, called)))
}

/// A text in quotes, or a name.
#[tactic(auto, unfolding(crate::specs::Dependencies::prompt_of))]
fn prompt(alloc: Global, value: &str) -> Result<Option<DepRef>, NoMemory>
    ensures { IfOk result (λ o. o ≡ prompt_of value.now) }
{
    if value.starts_with('"') {
        Ok(quoted(alloc, value)?.map(DepRef::PromptText))
    } else {
        Ok(name(alloc, value)?.map(DepRef::PromptName))
    }
}
