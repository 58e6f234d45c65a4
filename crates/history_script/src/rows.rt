//! The lines behind `$HISTORY`, each read by itself.
ghost use Rattle.std.specs.Prelude.{◌≡◌, IfOk, Some, map, option_and_then};
ghost use Rattle.std.specs.List.{list_all};
ghost use Rattle.std.specs.Char.{is_ascii_digit};
ghost use Rattle.record_rows.specs.Rows.{is_skipped as is_skipped_line};
ghost use Rattle.record_rows.specs.Words.{sized};
ghost use Rattle.syntax.specs.Numbers.{is_number as is_number_word};
ghost use Rattle.history_script.specs.Rows as spec;
ghost use Rattle.history_script.specs.Rows.{row_of};
ghost use Rattle.history_script.specs.declared.rows.HistoryRow.TheVariants as row;

use crate::digits::some_bytes;
use base_types::{Bytes, Items, JobNo, NoMemory, Text};
use record_rows::Ranged;
use std::alloc::Global;
use syntax::{first_word, name, number_u32, words};

/// What a line behind `$HISTORY` is.
pub enum HistoryRow {
    /// An empty line or a comment.
    Skipped,
    /// No line of a history.
    NoForm,
    /// `entry HEX`, by the bytes whose digits HEX is.
    Entry(Bytes),
    /// `start W JOB NUMBER`
    Start(Text, Ranged<JobNo>, Ranged<u32>),
}

impl Drop for HistoryRow {
    fn drop(self) {
        match self {
            HistoryRow::Skipped => {}
            HistoryRow::NoForm => {}
            HistoryRow::Entry(_a) => {}
            HistoryRow::Start(_a, _b, _c) => {}
        }
    }
}

fn are_digits(bytes: &[u8]) -> bool
    ensures { result ≡ list_all is_ascii_digit bytes.now }
{
    bytes.iter().all(|b| b.is_ascii_digit())
}

/// Whether the word is a number, however large.
fn is_number(word: &str) -> bool
    ensures { result ≡ is_number_word word.now }
{
    let bytes = word.as_bytes();
    if bytes.is_empty() || bytes.len() > 1 && bytes[0] == b'0' {
        return false;
    }
    are_digits(bytes)
}

/// A number of 32 bits. None where the word is no number.
#[tactic(auto, unfolding(record_rows::specs::Words::sized))]
fn count(word: &str) -> Option<Ranged<u32>>
    ensures { result ≡ sized 32 word.now }
{
    if !is_number(word) {
        return None;
    }
    match number_u32(word) {
        Some(n) => Some(Ranged::Within(n)),
        None => Some(Ranged::OutOfRange),
    }
}

/// The number of a job. None where the word is no number.
#[tactic(auto, unfolding(record_rows::specs::Words::sized))]
fn job_no(word: &str) -> Option<Ranged<JobNo>>
    ensures { result ≡ sized 32 word.now }
{
    if !is_number(word) {
        return None;
    }
    match number_u32(word) {
        Some(n) => Some(Ranged::Within(JobNo(n))),
        None => Some(Ranged::OutOfRange),
    }
}

/// `entry HEX`
fn entry_row(alloc: Global, rest: &str) -> Result<Option<HistoryRow>, NoMemory>
    ensures { IfOk result (λ o. o ≡ spec.entry_row rest.now) }
{
    match some_bytes(alloc, rest)? {
        Some(bytes) => Ok(Some(HistoryRow::Entry(Items::of_vec(bytes)))),
        None => Ok(None),
    }
}

/// `JOB NUMBER`, behind the name of the workstation
fn start_at(ws: Text, job: &str, number: &str) -> Option<HistoryRow>
    ensures { result ≡ option_and_then (λ j. option_and_then (λ n. Some (row.Start ws j n)) (sized 32 number.now)) (sized 32 job.now) }
{
    let job = job_no(job)?;
    let number = count(number)?;
    Some(HistoryRow::Start(ws, job, number))
}

/// `start W JOB NUMBER`
#[tactic(auto, unfolding(crate::specs::Rows::start_row))]
fn start_row(alloc: Global, words: &[&str]) -> Result<Option<HistoryRow>, NoMemory>
    ensures { IfOk result (λ o. o ≡ spec.start_row (map (λ x. x.now) words.now)) }
{
    match words {
        [ws, job, number] => match name(alloc, ws) {
            Ok(Some(ws)) => Ok(start_at(ws, job, number)),
            Ok(None) => Ok(None),
            Err(error) => Err(error),
        },
        _ => Ok(None),
    }
}

/// A line by its first word and what follows it. None where it has no form.
fn form(alloc: Global, word: &str, rest: &str) -> Result<Option<HistoryRow>, NoMemory>
    ensures { IfOk result (λ o. o ≡ spec.form_of word.now rest.now) }
{
    if word == "entry" {
        entry_row(alloc, rest)
    } else if word == "start" {
        let words = words(alloc, rest)?;
        start_row(alloc, &words)
    } else {
        Ok(None)
    }
}

fn is_skipped(line: &str) -> bool
    ensures { result ≡ is_skipped_line line.now }
{
    line.is_empty() || line.as_bytes()[0] == b'#'
}

/// The row that a line is.
#[tactic(auto, unfolding(crate::specs::Rows::row_of))]
pub(crate) fn read_row(alloc: Global, line: &str) -> Result<HistoryRow, NoMemory>
    ensures { IfOk result (λ r. r ≡ row_of line.now) }
{
    if is_skipped(line) {
        return Ok(HistoryRow::Skipped);
    }
    let (word, rest) = first_word(line);
    match form(alloc, word, rest)? {
        Some(row) => Ok(row),
        None => Ok(HistoryRow::NoForm),
    }
}
