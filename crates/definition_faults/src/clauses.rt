//! The clauses of a stream or of an entry.
ghost use Rattle.std.specs.Prelude.{◌≡◌, ◌+◌, ◌≤◌, ◌&&◌, nat_le, nat_lt, min};
ghost use Rattle.std.specs.List.{list_any};
ghost use Rattle.std.specs.Option.{option_copied};
ghost use Rattle.model.specs.Words.{first_of_these};
ghost use Rattle.definition_faults.specs.Orders.{earliest};
ghost use Rattle.definition_faults.specs.Clauses as spec;
ghost use Rattle.definition_faults.specs.Unknown as unknown;

use crate::kinds::{Fault, Kind, noted};
use crate::ranges::{dependency_count, is_out_of_range};
use crate::stations::{is_unknown_ws, ws_or};
use base_types::{MOST_DEPENDENCIES, Text};
use composer_parser::{Clause, Lined, Need, Pred, PromptItem};
use definition_names::Names;

/// The most dependencies of an object.
const MOST: usize = MOST_DEPENDENCIES as usize;

/// The first fault of the clauses of an object in the stream at a place: of its header, or `inside` of an entry. The
/// object is on this workstation.
#[tactic(auto, unfolding(crate::specs::Clauses::clause_faults))]
pub(crate) fn in_clauses<'a>(
    names: &Names<'a>,
    stream: usize,
    inside: bool,
    ws: Option<&'a Text>,
    clauses: &'a [Lined<Clause>],
) -> Option<Fault>
    ensures { result ≡ earliest (spec.clause_faults names.now stream inside (option_copied ws.entry) clauses.now) }
{
    let mut first = None;
    let mut before: usize = 0;
    for clause in clauses {
        let count = with_more(before, dependency_count(&clause.item));
        let passes = passes_most(before, count);
        first = noted(
            first,
            clause.line,
            of_clause(names, stream, inside, ws, passes, &clause.item),
        );
        before = count;
    }
    first
}

/// Whether so many dependencies are not too many and so many are.
fn passes_most(before: usize, count: usize) -> bool
    ensures { result ≡ (nat_le before 64 && nat_lt 64 count) }
{
    before <= MOST && count > MOST
}

/// So many dependencies and more, counted up to 65.
fn with_more(before: usize, more: usize) -> usize
    requires { before ≤ 65 }
    ensures { result ≡ min 65 (before + more) }
{
    if more > MOST + 1 - before {
        MOST + 1
    } else {
        before + more
    }
}

fn of_clause<'a>(
    names: &Names<'a>,
    stream: usize,
    inside: bool,
    ws: Option<&'a Text>,
    passes: bool,
    clause: &'a Clause,
) -> Option<Kind>
    ensures { result ≡ first_of_these (spec.clause_rows names.now stream inside (option_copied ws.entry) passes clause.now) }
{
    if has_unknown(names, stream, inside, ws, clause) {
        return Some(Kind::UnknownName);
    }
    if passes || is_out_of_range(clause) {
        return Some(Kind::OutOfRange);
    }
    if has_foreign(ws, clause) {
        return Some(Kind::ForeignResource);
    }
    None
}

/// Whether a clause names something that is not defined.
fn has_unknown<'a>(
    names: &Names<'a>,
    stream: usize,
    inside: bool,
    ws: Option<&'a Text>,
    clause: &'a Clause,
) -> bool
    ensures { result ≡ unknown.has_unknown names.now stream inside (option_copied ws.entry) clause.now }
{
    match clause {
        Clause::Follows(preds) => { has_unknown_pred(names, stream, inside, preds.as_slice()) }
        Clause::Needs(needs) => has_unknown_need(names, ws, needs.as_slice()),
        Clause::Prompt(prompts) => has_unknown_prompt(names, prompts.as_slice()),
        _ => false,
    }
}

fn has_unknown_pred<'a>(names: &Names<'a>, stream: usize, inside: bool, preds: &'a [Pred]) -> bool
    ensures { result ≡ list_any (unknown.is_unknown_pred names.now stream inside) preds.now }
{
    for pred in preds {
        if is_unknown_pred(names, stream, inside, pred) {
            return true;
        }
    }
    false
}

fn is_unknown_pred<'a>(names: &Names<'a>, stream: usize, inside: bool, pred: &'a Pred) -> bool
    ensures { result ≡ unknown.is_unknown_pred names.now stream inside pred.now }
{
    is_unknown_ws(names, &pred.ws) || names.target(stream, inside, pred).is_none()
}

fn has_unknown_need<'a>(names: &Names<'a>, ws: Option<&'a Text>, needs: &'a [Need]) -> bool
    ensures { result ≡ list_any (unknown.is_unknown_need names.now (option_copied ws.entry)) needs.now }
{
    for need in needs {
        if is_unknown_need(names, ws, need) {
            return true;
        }
    }
    false
}

fn is_unknown_need<'a>(names: &Names<'a>, ws: Option<&'a Text>, need: &'a Need) -> bool
    ensures { result ≡ unknown.is_unknown_need names.now (option_copied ws.entry) need.now }
{
    if is_unknown_ws(names, &need.ws) {
        return true;
    }
    match ws_or(&need.ws, ws) {
        Some(place) => names.resource(place, &need.name).is_none(),
        None => true,
    }
}

fn has_unknown_prompt<'a>(names: &Names<'a>, prompts: &'a [PromptItem]) -> bool
    ensures { result ≡ list_any (unknown.is_unknown_prompt names.now) prompts.now }
{
    for prompt in prompts {
        if is_unknown_prompt(names, prompt) {
            return true;
        }
    }
    false
}

fn is_unknown_prompt<'a>(names: &Names<'a>, prompt: &'a PromptItem) -> bool
    ensures { result ≡ unknown.is_unknown_prompt names.now prompt.now }
{
    match prompt {
        PromptItem::Name(name) => names.prompt(name).is_none(),
        PromptItem::Own(_) => false,
    }
}

/// Whether a clause needs a resource of another workstation than the object's.
fn has_foreign<'a>(ws: Option<&'a Text>, clause: &'a Clause) -> bool
    ensures { result ≡ spec.has_foreign (option_copied ws.entry) clause.now }
{
    match clause {
        Clause::Needs(needs) => has_foreign_need(ws, needs.as_slice()),
        _ => false,
    }
}

fn has_foreign_need<'a>(ws: Option<&'a Text>, needs: &'a [Need]) -> bool
    ensures { result ≡ list_any (spec.is_foreign (option_copied ws.entry)) needs.now }
{
    for need in needs {
        if is_foreign(ws, need) {
            return true;
        }
    }
    false
}

fn is_foreign<'a>(ws: Option<&'a Text>, need: &'a Need) -> bool
    ensures { result ≡ spec.is_foreign (option_copied ws.entry) need.now }
{
    match &need.ws {
        None => false,
        Some(written) => match ws {
            Some(own) => *written != *own,
            None => true,
        },
    }
}
