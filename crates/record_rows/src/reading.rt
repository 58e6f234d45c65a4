//! The rows of a text's lines.
ghost use Rattle.std.specs.Prelude.{◌≡◌, ◌==◌, ◌++◌, ◌∷◌, [], IfOk, OnOk, map, option_map, true};
ghost use Rattle.std.specs.List.{slice_split};
ghost use Rattle.record_rows.specs.Plans.{dep_of, part_of};
ghost use Rattle.record_rows.specs.Rows as spec;
ghost use Rattle.record_rows.specs.Rows.{◌else_◌, plan_row, row_of, rows_of};
ghost use Rattle.record_rows.specs.Steps as steps;
ghost use Rattle.record_rows.specs.Steps.{step_of};
ghost use Rattle.record_rows.specs.declared.rows.Row.TheVariants as row;

use crate::dependency_rows::dep;
use crate::network_rows::network_row;
use crate::plan_rows::{object_row, part};
use crate::rows::Row;
use crate::spellings::{cut_at, first_word, is};
use crate::step_rows::{frequent_step, is_frequent, step};
use base_types::{Items, NoMemory};
use std::alloc::Global;

/// A line that is a header.
fn header(text: &str) -> Option<Row>
    ensures { result ≡ spec.header_of text.now }
{
    if is(text, "$NETWORK") {
        Some(Row::Network)
    } else if is(text, "$DEFINITIONS") {
        Some(Row::Definitions)
    } else if is(text, "$PLAN") {
        Some(Row::Plan)
    } else if is(text, "$STEPS") {
        Some(Row::Steps)
    } else {
        None
    }
}

/// A step.
fn step_row(alloc: Global, text: &str) -> Result<Option<Row>, NoMemory>
    ensures { IfOk result (λ o. o ≡ option_map row.Step (step_of text.now)) }
{
    match step(alloc, text) {
        Ok(Some(step)) => Ok(Some(Row::Step(step))),
        Ok(None) => Ok(None),
        Err(error) => Err(error),
    }
}

/// One of the steps that a long record has most of, by its first word and what follows it.
fn frequent_row(alloc: Global, word: &str, rest: &str) -> Result<Option<Row>, NoMemory>
    requires { steps.is_frequent word.now ≡ true }
    ensures { IfOk result (λ o. o ≡ option_map row.Step (steps.step_of_word word.now rest.now)) }
{
    match frequent_step(alloc, word, rest) {
        Ok(Some(step)) => Ok(Some(Row::Step(step))),
        Ok(None) => Ok(None),
        Err(error) => Err(error),
    }
}

/// A dependency, or else a step.
fn dep_or_step(alloc: Global, text: &str, word: &str, rest: &str) -> Result<Option<Row>, NoMemory>
    ensures { IfOk result (λ o. o ≡ (option_map row.Dep (dep_of word.now rest.now)
        else_ option_map row.Step (step_of text.now))) }
{
    match dep(alloc, word, rest) {
        Ok(Some(dep)) => Ok(Some(Row::Dep(dep))),
        Ok(None) => step_row(alloc, text),
        Err(error) => Err(error),
    }
}

/// A part of a job, or else a line of those behind it in the table.
fn part_or_behind(
    alloc: Global,
    text: &str,
    word: &str,
    rest: &str,
) -> Result<Option<Row>, NoMemory>
    ensures { IfOk result (λ o. o ≡ (option_map row.Part (part_of word.now rest.now)
        else_ option_map row.Dep (dep_of word.now rest.now) else_ option_map row.Step (step_of text.now))) }
{
    match part(alloc, word, rest) {
        Ok(Some(part)) => Ok(Some(Row::Part(part))),
        Ok(None) => dep_or_step(alloc, text, word, rest),
        Err(error) => Err(error),
    }
}

/// A stream or a job, or else a line of those behind them in the table.
fn object_or_behind(
    alloc: Global,
    text: &str,
    word: &str,
    rest: &str,
) -> Result<Option<Row>, NoMemory>
    ensures { IfOk result (λ o. o ≡ (plan_row word.now rest.now else_ option_map row.Part (part_of word.now rest.now)
        else_ option_map row.Dep (dep_of word.now rest.now) else_ option_map row.Step (step_of text.now))) }
{
    match object_row(alloc, word, rest) {
        Ok(Some(row)) => Ok(Some(row)),
        Ok(None) => part_or_behind(alloc, text, word, rest),
        Err(error) => Err(error),
    }
}

/// A line that is no header. None where it has no form. Most lines of a long record are steps, and are told first.
#[tactic(auto, unfolding(crate::specs::Rows::form_below), using(crate::proofs::StepWords::frequent_form))]
fn form_below(alloc: Global, text: &str) -> Result<Option<Row>, NoMemory>
    ensures { IfOk result (λ o. o ≡ spec.form_below text.now) }
{
    let (word, rest) = first_word(text);
    if is_frequent(word) {
        return frequent_row(alloc, word, rest);
    }
    match network_row(alloc, word, rest) {
        Ok(Some(row)) => Ok(Some(row)),
        Ok(None) => object_or_behind(alloc, text, word, rest),
        Err(error) => Err(error),
    }
}

/// The row that a line is. None where it has no form.
#[tactic(auto, unfolding(crate::specs::Rows::form_of))]
fn form(alloc: Global, text: &str) -> Result<Option<Row>, NoMemory>
    ensures { IfOk result (λ o. o ≡ spec.form_of text.now) }
{
    if let Some(row) = header(text) {
        return Ok(Some(row));
    }
    form_below(alloc, text)
}

fn is_skipped(text: &str) -> bool
    ensures { result ≡ spec.is_skipped text.now }
{
    text.is_empty() || text.as_bytes()[0] == b'#'
}

/// The row that a line is.
#[tactic(auto, unfolding(crate::specs::Rows::row_of))]
fn row(alloc: Global, text: &str) -> Result<Row, NoMemory>
    ensures { IfOk result (λ r. r ≡ row_of text.now) }
{
    if is_skipped(text) {
        return Ok(Row::Skipped);
    }
    match form(alloc, text) {
        Ok(Some(row)) => Ok(row),
        Ok(None) => Ok(Row::NoForm),
        Err(error) => Err(error),
    }
}

/// Adds the row that a line is.
fn add_row(alloc: Global, rows: &mut Items<Row>, text: &str) -> Result<(), NoMemory>
    ensures { OnOk result (rows.new ≡ rows.old ++ row_of text.now ∷ []) }
{
    match row(alloc, text) {
        Ok(next) => rows.push(next),
        Err(error) => Err(error),
    }
}

/// The rows of lines, which line feeds separate.
fn rows_between_feeds(alloc: Global, text: &str) -> Result<Items<Row>, NoMemory>
    ensures { IfOk result (λ rows. rows ≡ map row_of (slice_split (λ b. b == 10) text.now)) }
{
    let mut rows = Items::new(alloc);
    let mut rest = text;
    while let Some((line, behind)) = cut_at(b'\n', rest) {
        add_row(alloc, &mut rows, line)?;
        rest = behind;
    }
    add_row(alloc, &mut rows, rest)?;
    Ok(rows)
}

/// The rows of a text, one for each of its lines, in order. A line feed belongs to the line that it ends, and the last
/// line may lack it, so row i stands for line i + 1. The only error is that memory ran out. It takes time in proportion
/// to the text.
#[tactic(auto, unfolding(syntax::specs::Splits::lines_of))]
pub fn read_rows(alloc: Global, text: &str) -> Result<Items<Row>, NoMemory>
    ensures { IfOk result (λ rows. rows ≡ rows_of text.now) }
{
    if text.is_empty() {
        return Ok(Items::new(alloc));
    }
    match text.strip_suffix('\n') {
        Some(body) => rows_between_feeds(alloc, body),
        None => rows_between_feeds(alloc, text),
    }
}
