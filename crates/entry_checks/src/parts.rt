//! Texts, counts, dependencies, conditions and works.
ghost use Rattle.std.specs.Prelude.{◌+◌};
ghost use Rattle.model.specs.Sizes as spec;
ghost use Rattle.entry_checks.specs.Left.{Takes};

use base_types::{
    Cond, CondOp, Dep, Deps, DraftDep, DraftDeps, Feed, PromptRef, Seen, StreamNos, Text, Work,
};

/// Takes so many bytes.
pub(crate) fn bytes(left: u32, count: usize) -> Option<u32>
    ensures { Takes left count result }
{
    if count <= left as usize {
        Some(left - count as u32)
    } else {
        None
    }
}

/// A text with its length.
pub(crate) fn text(left: u32, text: &Text) -> Option<u32>
    ensures { Takes left (spec.text_size text.now) result }
{
    let rest = bytes(left, 2)?;
    bytes(rest, text.len())
}

pub(crate) fn feed(left: u32, feed: &Feed) -> Option<u32>
    ensures { Takes left (spec.feed_size feed.now) result }
{
    match feed {
        Feed::Events(_) => bytes(left, 3),
        Feed::Orders(_, _) => bytes(left, 5),
    }
}

pub(crate) fn dep(left: u32, dep: &Dep) -> Option<u32>
    ensures { Takes left (spec.dep_size dep.now) result }
{
    match dep {
        Dep::FollowsJob(_) => bytes(left, 5),
        Dep::FollowsStream(_) => bytes(left, 5),
        Dep::Needs(_, _) => bytes(left, 5),
        Dep::Prompt(PromptRef::Global(_)) => bytes(left, 3),
        Dep::Prompt(PromptRef::Own(own)) => text(bytes(left, 1)?, own),
        Dep::At(_) => bytes(left, 9),
        Dep::Until(_, _) => bytes(left, 10),
        Dep::Outside(path) => text(bytes(left, 1)?, path),
        Dep::Deadline(_) => bytes(left, 9),
    }
}

pub(crate) fn draft_dep(left: u32, given: &DraftDep) -> Option<u32>
    ensures { Takes left (spec.draft_dep_size given.now) result }
{
    match given {
        DraftDep::Follows(_, name, job) => {
            let rest = text(bytes(left, 3)?, name)?;
            match job {
                None => bytes(rest, 1),
                Some(of) => text(bytes(rest, 1)?, of),
            }
        }
        DraftDep::Plain(plain) => dep(left, plain),
    }
}

fn op(left: u32, op: &CondOp) -> Option<u32>
    ensures { Takes left (spec.op_size op.now) result }
{
    match op {
        CondOp::Cmp(_, _) => bytes(left, 5),
        CondOp::And => bytes(left, 1),
        CondOp::Or => bytes(left, 1),
        CondOp::Not => bytes(left, 1),
    }
}

pub(crate) fn work(left: u32, work: &Work) -> Option<u32>
    ensures { Takes left (spec.work_size work.now) result }
{
    match work {
        Work::Command(line) => text(bytes(left, 1)?, line),
        Work::Script(path) => text(bytes(left, 1)?, path),
    }
}

/// Counts of workstations.
pub(crate) fn seen(left: u32, seen: &Seen) -> Option<u32>
    ensures { Takes left (spec.seen_size seen.now) result }
{
    let mut rest = bytes(left, 4)?;
    for _item in seen.as_slice() {
        rest = bytes(rest, 6)?;
    }
    Some(rest)
}

/// Numbers of streams.
pub(crate) fn numbers(left: u32, numbers: &StreamNos) -> Option<u32>
    ensures { Takes left (spec.list_size (λ s. 4) numbers.now) result }
{
    let mut rest = bytes(left, 4)?;
    for _item in numbers.as_slice() {
        rest = bytes(rest, 4)?;
    }
    Some(rest)
}

pub(crate) fn cond(left: u32, cond: &Cond) -> Option<u32>
    ensures { Takes left (spec.cond_size cond.now) result }
{
    let mut rest = bytes(left, 1)?;
    for item in cond.as_slice() {
        rest = op(rest, item)?;
    }
    Some(rest)
}

pub(crate) fn deps(left: u32, deps: &Deps) -> Option<u32>
    ensures { Takes left (spec.list_size spec.dep_size deps.now) result }
{
    let mut rest = bytes(left, 4)?;
    for item in deps.as_slice() {
        rest = dep(rest, item)?;
    }
    Some(rest)
}

pub(crate) fn draft_deps(left: u32, deps: &DraftDeps) -> Option<u32>
    ensures { Takes left (spec.list_size spec.draft_dep_size deps.now) result }
{
    let mut rest = bytes(left, 4)?;
    for item in deps.as_slice() {
        rest = draft_dep(rest, item)?;
    }
    Some(rest)
}
