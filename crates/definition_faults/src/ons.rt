//! The ON and EXCEPT statements of a stream.
ghost use Rattle.std.specs.Prelude.{◌≡◌};
ghost use Rattle.std.specs.List.{list_any};
ghost use Rattle.model.specs.Words.{first_of_these};
ghost use Rattle.definition_faults.specs.Orders.{earliest};
ghost use Rattle.definition_faults.specs.Ons as spec;

use crate::kinds::{Fault, Kind, noted};
use crate::stations::is_unknown_calendar;
use composer_parser::{Lined, Offset, OnDef, OnItem};
use definition_names::Names;
use run_rules::is_in_range;

/// The first fault of these statements.
#[tactic(auto, unfolding(crate::specs::Ons::on_faults))]
pub(crate) fn in_ons<'a>(names: &Names<'a>, ons: &'a [Lined<OnDef>]) -> Option<Fault>
    ensures { result ≡ earliest (spec.on_faults names.now ons.now) }
{
    let mut first = None;
    for on in ons {
        first = noted(first, on.line, of_on(names, &on.item));
    }
    first
}

fn of_on<'a>(names: &Names<'a>, on: &'a OnDef) -> Option<Kind>
    ensures { result ≡ first_of_these (spec.on_rows names.now on.now) }
{
    if has_unknown(names, on.items.as_slice()) {
        return Some(Kind::UnknownName);
    }
    if has_bad(has_first(on), on.items.as_slice()) {
        return Some(Kind::OutOfRange);
    }
    None
}

fn has_unknown<'a>(names: &Names<'a>, items: &'a [OnItem]) -> bool
    ensures { result ≡ list_any (spec.is_unknown_item names.now) items.now }
{
    for item in items {
        if is_unknown_item(names, item) {
            return true;
        }
    }
    false
}

fn is_unknown_item<'a>(names: &Names<'a>, item: &'a OnItem) -> bool
    ensures { result ≡ spec.is_unknown_item names.now item.now }
{
    match item {
        OnItem::Calendar(name, _) => is_unknown_calendar(names, name),
        _ => false,
    }
}

/// Whether the statement has a VALIDFROM.
fn has_first(on: &OnDef) -> bool
    ensures { result ≡ spec.has_first on.now }
{
    match &on.cycle {
        Some(cycle) => cycle.first.is_some(),
        None => false,
    }
}

fn has_bad(has_first: bool, items: &[OnItem]) -> bool
    ensures { result ≡ list_any (spec.is_bad_item has_first) items.now }
{
    for item in items {
        if is_bad_item(has_first, item) {
            return true;
        }
    }
    false
}

fn is_bad_item(has_first: bool, item: &OnItem) -> bool
    ensures { result ≡ spec.is_bad_item has_first item.now }
{
    match item {
        OnItem::Rule(rule) => !is_in_range(rule.as_str(), has_first),
        OnItem::Calendar(_, Some(offset)) => is_bad_offset(offset),
        _ => false,
    }
}

/// Whether the number of an offset is not from 1 to 999.
fn is_bad_offset(offset: &Offset) -> bool
    ensures { result ≡ spec.is_bad_offset offset.now }
{
    offset.n < 1 || 999 < offset.n
}
