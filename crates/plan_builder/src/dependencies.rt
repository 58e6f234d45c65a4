//! The dependencies of drafts.
ghost use Rattle.std.specs.Prelude.{◌≡◌, ◌++◌, IfOk, OnOk, flat_map, filter_map, map};
ghost use Rattle.std.specs.Option.{option_copied, option_to_list};
ghost use Rattle.plan_builder.specs.Dependencies as spec;

use crate::drafts::number_of;
use crate::times::{PlanDay, moment_or_first};
use base_types::{Copied, Dep, DraftDep, DraftDeps, Items, NoMemory, PromptRef, Text};
use composer_parser::{Clause, EntryDef, Lined, Need, Pred, PromptItem, ScheduleDef};
use definition_names::{Names, Target};
use std::alloc::Global;
use workload_defs::Workload;

/// The dependencies that clauses give, kind by kind: of the stream at a place, or `inside` of one of its entries, which is
/// on this workstation.
#[tactic(auto, unfolding(crate::specs::Dependencies::dependencies_of))]
pub(crate) fn dependencies<'a>(
    alloc: Global,
    w: &Workload,
    names: &Names<'a>,
    plan: &PlanDay,
    n: usize,
    inside: bool,
    ws: Option<&'a Text>,
    clauses: &'a [Lined<Clause>],
) -> Result<DraftDeps, NoMemory>
    requires { w.now ≡ names.now }
    ensures { IfOk result (λ deps. deps ≡ spec.dependencies_of w.now plan.now n inside (option_copied ws.entry) clauses.now) }
{
    let mut deps = Items::new(alloc);
    put_times(&mut deps, plan, clauses)?;
    put_follows(&mut deps, w, names, n, inside, clauses)?;
    put_needs(&mut deps, names, ws, clauses)?;
    put_prompts(&mut deps, names, clauses)?;
    put_files(&mut deps, clauses)?;
    Ok(deps)
}

/// AT, UNTIL and DEADLINE.
fn put_times(
    deps: &mut DraftDeps,
    plan: &PlanDay,
    clauses: &[Lined<Clause>],
) -> Result<(), NoMemory>
    ensures { OnOk result (deps.new ≡ deps.old ++ flat_map (spec.at_in plan.now) clauses.now
        ++ flat_map (spec.until_in plan.now) clauses.now ++ flat_map (spec.deadline_in plan.now) clauses.now) }
{
    put_ats(deps, plan, clauses)?;
    put_untils(deps, plan, clauses)?;
    put_deadlines(deps, plan, clauses)
}

fn put_ats(deps: &mut DraftDeps, plan: &PlanDay, clauses: &[Lined<Clause>]) -> Result<(), NoMemory>
    ensures { OnOk result (deps.new ≡ deps.old ++ flat_map (spec.at_in plan.now) clauses.now) }
{
    for clause in clauses {
        put_at(deps, plan, clause)?;
    }
    Ok(())
}

fn put_at(deps: &mut DraftDeps, plan: &PlanDay, clause: &Lined<Clause>) -> Result<(), NoMemory>
    ensures { OnOk result (deps.new ≡ deps.old ++ spec.at_in plan.now clause.now) }
{
    match &clause.item {
        Clause::At(minute, days) => {
            let time = moment_or_first(plan, *minute, *days);
            deps.push(DraftDep::Plain(Dep::At(time)))
        }
        _ => Ok(()),
    }
}

fn put_untils(
    deps: &mut DraftDeps,
    plan: &PlanDay,
    clauses: &[Lined<Clause>],
) -> Result<(), NoMemory>
    ensures { OnOk result (deps.new ≡ deps.old ++ flat_map (spec.until_in plan.now) clauses.now) }
{
    for clause in clauses {
        put_until(deps, plan, clause)?;
    }
    Ok(())
}

fn put_until(deps: &mut DraftDeps, plan: &PlanDay, clause: &Lined<Clause>) -> Result<(), NoMemory>
    ensures { OnOk result (deps.new ≡ deps.old ++ spec.until_in plan.now clause.now) }
{
    match &clause.item {
        Clause::Until(minute, days, then) => {
            let time = moment_or_first(plan, *minute, *days);
            deps.push(DraftDep::Plain(Dep::Until(time, *then)))
        }
        _ => Ok(()),
    }
}

fn put_deadlines(
    deps: &mut DraftDeps,
    plan: &PlanDay,
    clauses: &[Lined<Clause>],
) -> Result<(), NoMemory>
    ensures { OnOk result (deps.new ≡ deps.old ++ flat_map (spec.deadline_in plan.now) clauses.now) }
{
    for clause in clauses {
        put_deadline(deps, plan, clause)?;
    }
    Ok(())
}

fn put_deadline(
    deps: &mut DraftDeps,
    plan: &PlanDay,
    clause: &Lined<Clause>,
) -> Result<(), NoMemory>
    ensures { OnOk result (deps.new ≡ deps.old ++ spec.deadline_in plan.now clause.now) }
{
    match &clause.item {
        Clause::Deadline(minute, days) => {
            let time = moment_or_first(plan, *minute, *days);
            deps.push(DraftDep::Plain(Dep::Deadline(time)))
        }
        _ => Ok(()),
    }
}

/// FOLLOWS.
fn put_follows<'a>(
    deps: &mut DraftDeps,
    w: &Workload,
    names: &Names<'a>,
    n: usize,
    inside: bool,
    clauses: &'a [Lined<Clause>],
) -> Result<(), NoMemory>
    requires { w.now ≡ names.now }
    ensures { OnOk result (deps.new ≡ deps.old ++ flat_map (spec.follows_in w.now n inside) clauses.now) }
{
    for clause in clauses {
        put_preds(deps, w, names, n, inside, preds_of(&clause.item))?;
    }
    Ok(())
}

/// What a clause follows.
fn preds_of(clause: &Clause) -> &[Pred]
    ensures { result.now ≡ spec.preds_of clause.now }
{
    match clause {
        Clause::Follows(preds) => preds.as_slice(),
        _ => &[],
    }
}

fn put_preds<'a>(
    deps: &mut DraftDeps,
    w: &Workload,
    names: &Names<'a>,
    n: usize,
    inside: bool,
    preds: &'a [Pred],
) -> Result<(), NoMemory>
    requires { w.now ≡ names.now }
    ensures { OnOk result (deps.new ≡ deps.old ++ filter_map (spec.follows_of w.now n inside) preds.now) }
{
    for pred in preds {
        put_pred(deps, w, names, n, inside, pred)?;
    }
    Ok(())
}

fn put_pred<'a>(
    deps: &mut DraftDeps,
    w: &Workload,
    names: &Names<'a>,
    n: usize,
    inside: bool,
    pred: &'a Pred,
) -> Result<(), NoMemory>
    requires { w.now ≡ names.now }
    ensures { OnOk result (deps.new ≡ deps.old ++ option_to_list (spec.follows_of w.now n inside pred.now)) }
{
    match follows_of(w, names, n, inside, pred)? {
        None => Ok(()),
        Some(dep) => deps.push(dep),
    }
}

/// The dependency of a FOLLOWS, by the names of what it stands for.
fn follows_of<'a>(
    w: &Workload,
    names: &Names<'a>,
    n: usize,
    inside: bool,
    pred: &'a Pred,
) -> Result<Option<DraftDep>, NoMemory>
    requires { w.now ≡ names.now }
    ensures { IfOk result (λ dep. dep ≡ spec.follows_of w.now n inside pred.now) }
{
    match names.target(n, inside, pred) {
        Some(target) => follows(w, names, &target),
        None => Ok(None),
    }
}

/// A FOLLOWS of what stands at these places, by its names.
fn follows<'a>(
    w: &Workload,
    names: &Names<'a>,
    target: &Target,
) -> Result<Option<DraftDep>, NoMemory>
    requires { w.now ≡ names.now }
    ensures { IfOk result (λ dep. dep ≡ spec.follows_at w.now target.now) }
{
    match target {
        Target::Stream(n) => match names.defs().schedules.get(*n) {
            None => Ok(None),
            Some(schedule) => Ok(Some(follows_stream(w, names, &schedule.item)?)),
        },
        Target::Job(n, i) => match names.defs().schedules.get(*n) {
            None => Ok(None),
            Some(schedule) => match schedule.item.entries.get(*i) {
                None => Ok(None),
                Some(entry) => Ok(Some(follows_job(w, names, &schedule.item, &entry.item)?)),
            },
        },
    }
}

fn follows_stream<'a>(
    w: &Workload,
    names: &Names<'a>,
    schedule: &'a ScheduleDef,
) -> Result<DraftDep, NoMemory>
    requires { w.now ≡ names.now }
    ensures { IfOk result (λ dep. dep ≡ spec.follows_stream w.now schedule.now) }
{
    let ws = number_of(w, names.ws_of_stream(schedule));
    Ok(DraftDep::Follows(ws, schedule.name.copy()?, None))
}

fn follows_job<'a>(
    w: &Workload,
    names: &Names<'a>,
    schedule: &'a ScheduleDef,
    entry: &'a EntryDef,
) -> Result<DraftDep, NoMemory>
    requires { w.now ≡ names.now }
    ensures { IfOk result (λ dep. dep ≡ spec.follows_job w.now schedule.now entry.now) }
{
    let ws = number_of(w, names.ws_of_stream(schedule));
    let job = entry.name.copy()?;
    Ok(DraftDep::Follows(ws, schedule.name.copy()?, Some(job)))
}

/// NEEDS.
fn put_needs<'a>(
    deps: &mut DraftDeps,
    names: &Names<'a>,
    ws: Option<&'a Text>,
    clauses: &'a [Lined<Clause>],
) -> Result<(), NoMemory>
    ensures { OnOk result (deps.new ≡ deps.old ++ flat_map (spec.needs_in names.now (option_copied ws.entry)) clauses.now) }
{
    for clause in clauses {
        put_units(deps, names, ws, needs_of(&clause.item))?;
    }
    Ok(())
}

/// What a clause needs.
fn needs_of(clause: &Clause) -> &[Need]
    ensures { result.now ≡ spec.needs_of clause.now }
{
    match clause {
        Clause::Needs(needs) => needs.as_slice(),
        _ => &[],
    }
}

fn put_units<'a>(
    deps: &mut DraftDeps,
    names: &Names<'a>,
    ws: Option<&'a Text>,
    needs: &'a [Need],
) -> Result<(), NoMemory>
    ensures { OnOk result (deps.new ≡ deps.old ++ map (spec.need_of names.now (option_copied ws.entry)) needs.now) }
{
    for need in needs {
        deps.push(need_of(names, ws, need))?;
    }
    Ok(())
}

fn need_of<'a>(names: &Names<'a>, ws: Option<&'a Text>, need: &'a Need) -> DraftDep
    ensures { result ≡ spec.need_of names.now (option_copied ws.entry) need.now }
{
    let resource = number_from_one(resource_at(names, ws, need));
    let units = need.units.unwrap_or(1).min(1024) as u16;
    DraftDep::Plain(Dep::Needs(resource, units))
}

/// The place of the resource that is needed by an object on this workstation.
fn resource_at<'a>(names: &Names<'a>, ws: Option<&'a Text>, need: &'a Need) -> Option<usize>
    ensures { result ≡ spec.resource_of names.now (option_copied ws.entry) need.now }
{
    match &need.ws {
        Some(written) => names.resource(written, &need.name),
        None => names.resource(ws?, &need.name),
    }
}

/// The number, from 1 to 65535, of what stands at a place. 0 where there is none.
fn number_from_one(place: Option<usize>) -> u16
    ensures { result ≡ spec.number_from_one place }
{
    match place {
        Some(place) if place < 65_535 => place as u16 + 1,
        _ => 0,
    }
}

/// PROMPT.
fn put_prompts<'a>(
    deps: &mut DraftDeps,
    names: &Names<'a>,
    clauses: &'a [Lined<Clause>],
) -> Result<(), NoMemory>
    ensures { OnOk result (deps.new ≡ deps.old ++ flat_map (spec.prompts_in names.now) clauses.now) }
{
    for clause in clauses {
        put_asks(deps, names, prompts_of(&clause.item))?;
    }
    Ok(())
}

/// What a clause asks.
fn prompts_of(clause: &Clause) -> &[PromptItem]
    ensures { result.now ≡ spec.prompts_of clause.now }
{
    match clause {
        Clause::Prompt(prompts) => prompts.as_slice(),
        _ => &[],
    }
}

fn put_asks<'a>(
    deps: &mut DraftDeps,
    names: &Names<'a>,
    prompts: &'a [PromptItem],
) -> Result<(), NoMemory>
    ensures { OnOk result (deps.new ≡ deps.old ++ map (spec.prompt_of names.now) prompts.now) }
{
    for prompt in prompts {
        deps.push(ask_of(names, prompt)?)?;
    }
    Ok(())
}

fn ask_of<'a>(names: &Names<'a>, prompt: &'a PromptItem) -> Result<DraftDep, NoMemory>
    ensures { IfOk result (λ dep. dep ≡ spec.prompt_of names.now prompt.now) }
{
    match prompt {
        PromptItem::Name(name) => {
            let number = number_from_one(names.prompt(name));
            Ok(DraftDep::Plain(Dep::Prompt(PromptRef::Global(number))))
        }
        PromptItem::Own(text) => Ok(DraftDep::Plain(Dep::Prompt(PromptRef::Own(text.copy()?)))),
    }
}

/// OPENS.
fn put_files(deps: &mut DraftDeps, clauses: &[Lined<Clause>]) -> Result<(), NoMemory>
    ensures { OnOk result (deps.new ≡ deps.old ++ flat_map spec.files_in clauses.now) }
{
    for clause in clauses {
        put_paths(deps, paths_of(&clause.item))?;
    }
    Ok(())
}

/// The paths of a clause.
fn paths_of(clause: &Clause) -> &[Text]
    ensures { result.now ≡ spec.paths_of clause.now }
{
    match clause {
        Clause::Opens(paths) => paths.as_slice(),
        _ => &[],
    }
}

fn put_paths(deps: &mut DraftDeps, paths: &[Text]) -> Result<(), NoMemory>
    ensures { OnOk result (deps.new ≡ deps.old ++ map spec.file_of paths.now) }
{
    for path in paths {
        deps.push(DraftDep::Plain(Dep::Outside(path.copy()?)))?;
    }
    Ok(())
}
