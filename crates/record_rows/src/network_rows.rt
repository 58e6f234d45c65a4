//! The lines of a network.
ghost use Rattle.std.specs.Prelude.{◌≡◌, IfOk, map, option_map};
ghost use Rattle.syntax.specs.Names.{name_of};
ghost use Rattle.syntax.specs.Splits.{words_of};
ghost use Rattle.record_rows.specs.Rows as spec;
ghost use Rattle.record_rows.specs.Behind.{resource_behind, resource_on, station_named};
ghost use Rattle.record_rows.specs.Words.{text_of};
ghost use Rattle.record_rows.specs.declared.rows.Row.TheVariants as row;

use crate::pairs::two_names;
use crate::quotes::text;
use crate::rows::{Row, StationRow};
use crate::spellings::{first_word, is};
use crate::words::number_up_to;
use base_types::{Carry, NoMemory, Text};
use std::alloc::Global;
use syntax::{name, words};

/// `manager`, `on`
fn flag(word: &str) -> Option<(bool, bool)>
    ensures { result ≡ spec.flag_of word.now }
{
    if is(word, "manager") {
        Some((true, false))
    } else if is(word, "on") {
        Some((false, true))
    } else {
        None
    }
}

/// `[manager] [on]`
#[tactic(auto, unfolding(crate::specs::Rows::flags_of))]
fn flags(words: &[&str]) -> Option<(bool, bool)>
    ensures { result ≡ spec.flags_of (map (λ x. x.now) words.now) }
{
    match words {
        [] => Some((false, false)),
        [a] => flag(a),
        [a, b] => {
            if *a != "manager" {
                return None;
            }
            if *b != "on" {
                return None;
            }
            Some((true, true))
        }
        _ => None,
    }
}

/// `NAME`
fn master(alloc: Global, own: &str) -> Result<Option<Row>, NoMemory>
    ensures { IfOk result (λ o. o ≡ option_map row.Master (name_of own.now)) }
{
    match name(alloc, own) {
        Ok(Some(own)) => Ok(Some(Row::Master(own))),
        Ok(None) => Ok(None),
        Err(error) => Err(error),
    }
}

/// `[manager] [on]`, behind the names of the workstation and its hop
fn station_named(own: Text, hop: Text, words: &[&str]) -> Option<Row>
    ensures { result ≡ station_named own hop (map (λ x. x.now) words.now) }
{
    match flags(words) {
        Some((manager, full)) => Some(Row::Station(StationRow {
            name: own,
            hop,
            manager,
            full,
        })),
        None => None,
    }
}

/// `ws NAME`, `ws NAME HOP [manager] [on]`
#[tactic(auto, unfolding(crate::specs::Rows::station_of))]
fn station(alloc: Global, words: &[&str]) -> Result<Option<Row>, NoMemory>
    ensures { IfOk result (λ o. o ≡ spec.station_of (map (λ x. x.now) words.now)) }
{
    match words {
        [own] => master(alloc, own),
        [own, hop, rest @ ..] => match two_names(alloc, own, hop) {
            Ok(Some((own, hop))) => Ok(station_named(own, hop, rest)),
            Ok(None) => Ok(None),
            Err(error) => Err(error),
        },
        _ => Ok(None),
    }
}

/// A station by the words behind `ws`.
fn station_row(alloc: Global, rest: &str) -> Result<Option<Row>, NoMemory>
    ensures { IfOk result (λ o. o ≡ spec.station_of (words_of rest.now)) }
{
    match words(alloc, rest) {
        Ok(words) => station(alloc, &words),
        Err(error) => Err(error),
    }
}

/// `TOTAL`, behind the workstation and the name
fn resource_behind(ws: Text, own: Text, total: &str) -> Option<Row>
    ensures { result ≡ resource_behind ws own total.now }
{
    match number_up_to(1024, total) {
        Some(total) => Some(Row::Resource(ws, own, total)),
        None => None,
    }
}

/// `NAME TOTAL`, behind the workstation
fn resource_on(alloc: Global, ws: Text, own: &str, total: &str) -> Result<Option<Row>, NoMemory>
    ensures { IfOk result (λ o. o ≡ resource_on ws own.now total.now) }
{
    match name(alloc, own) {
        Ok(Some(own)) => Ok(resource_behind(ws, own, total)),
        Ok(None) => Ok(None),
        Err(error) => Err(error),
    }
}

/// `WS NAME TOTAL`
#[tactic(auto, unfolding(crate::specs::Rows::resource_of))]
fn resource(alloc: Global, words: &[&str]) -> Result<Option<Row>, NoMemory>
    ensures { IfOk result (λ o. o ≡ spec.resource_of (map (λ x. x.now) words.now)) }
{
    match words {
        [ws, own, total] => match name(alloc, ws) {
            Ok(Some(ws)) => resource_on(alloc, ws, own, total),
            Ok(None) => Ok(None),
            Err(error) => Err(error),
        },
        _ => Ok(None),
    }
}

/// A resource by the words behind `res`.
fn resource_row(alloc: Global, rest: &str) -> Result<Option<Row>, NoMemory>
    ensures { IfOk result (λ o. o ≡ spec.resource_of (words_of rest.now)) }
{
    match words(alloc, rest) {
        Ok(words) => resource(alloc, &words),
        Err(error) => Err(error),
    }
}

/// `"TEXT"`, behind the name
fn prompt_named(alloc: Global, own: Text, rest: &str) -> Result<Option<Row>, NoMemory>
    ensures { IfOk result (λ o. o ≡ option_map (row.Prompt own) (text_of rest.now)) }
{
    match text(alloc, rest) {
        Ok(Some(asked)) => Ok(Some(Row::Prompt(own, asked))),
        Ok(None) => Ok(None),
        Err(error) => Err(error),
    }
}

/// `NAME "TEXT"`
#[tactic(auto, unfolding(crate::specs::Rows::prompt_of))]
fn prompt(alloc: Global, rest: &str) -> Result<Option<Row>, NoMemory>
    ensures { IfOk result (λ o. o ≡ spec.prompt_of rest.now) }
{
    let (own, rest) = first_word(rest);
    match name(alloc, own) {
        Ok(Some(own)) => prompt_named(alloc, own, rest),
        Ok(None) => Ok(None),
        Err(error) => Err(error),
    }
}

/// `carryforward yes`, `carryforward no`, `carryforward all`
fn carry(rest: &str) -> Option<Carry>
    ensures { result ≡ spec.carry_of rest.now }
{
    if is(rest, "yes") {
        Some(Carry::Yes)
    } else if is(rest, "no") {
        Some(Carry::No)
    } else if is(rest, "all") {
        Some(Carry::All)
    } else {
        None
    }
}

/// A line of a network, by its first word and what follows it. None where it is none.
#[tactic(auto, unfolding(crate::specs::Rows::network_row))]
pub(crate) fn network_row(alloc: Global, word: &str, rest: &str) -> Result<Option<Row>, NoMemory>
    ensures { IfOk result (λ o. o ≡ spec.network_row word.now rest.now) }
{
    if is(word, "ws") {
        station_row(alloc, rest)
    } else if is(word, "res") {
        resource_row(alloc, rest)
    } else if is(word, "prompt") {
        prompt(alloc, rest)
    } else if is(word, "carryforward") {
        Ok(carry(rest).map(Row::CarryForward))
    } else {
        Ok(None)
    }
}
