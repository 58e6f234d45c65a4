//! Run cycles: ON and EXCEPT.
ghost use Rattle.std.specs.Prelude.{◌≡◌, ◌++◌, OnOk, codes, map, flat_map, false};
ghost use Rattle.composer_print.specs.Texts.{texts_from};
ghost use Rattle.composer_print.specs.Normal.{bare};
ghost use Rattle.composer_print.specs.Streams as spec;
ghost use Rattle.composer_print.specs.Streams.{items};

use crate::days::write_date;
use crate::leads::write_lead;
use base_types::Text;
use composer_parser::{CycleDef, Lined, Offset, OffsetUnit, OnDef, OnItem, Shift};
use std::io::{self, Write};
use syntax::write_quoted;

#[tactic(auto, unfolding(crate::specs::Streams::weekday_text))]
fn weekday_text(n: u8) -> &'static str
    ensures { result.now ≡ spec.weekday_text n }
{
    if n == 0 {
        return "MO";
    }
    if n == 1 {
        return "TU";
    }
    if n == 2 {
        return "WE";
    }
    if n == 3 {
        return "TH";
    }
    if n == 4 {
        return "FR";
    }
    if n == 5 {
        return "SA";
    }
    if n == 6 {
        return "SU";
    }
    ""
}

fn sign_text(plus: bool) -> &'static str
    ensures { result.now ≡ spec.sign_text plus }
{
    if plus { " +" } else { " -" }
}

fn unit_text(unit: OffsetUnit) -> &'static str
    ensures { result.now ≡ spec.unit_text unit }
{
    match unit {
        OffsetUnit::Days => " DAYS",
        OffsetUnit::Weekdays => " WEEKDAYS",
        OffsetUnit::Workdays => " WORKDAYS",
    }
}

#[tactic(auto, unfolding(crate::specs::Streams::offset_text))]
fn write_offset(out: &mut Vec<u8>, offset: &Option<Offset>) -> io::Result<()>
    ensures { OnOk result (out.new.items ≡ out.old.items ++ spec.offset_text offset.now) }
{
    match offset {
        None => Ok(()),
        Some(found) => {
            let sign = sign_text(found.plus);
            let unit = unit_text(found.unit);
            write!(out, "{sign}{}{unit}", found.n)
        }
    }
}

fn write_weekday(out: &mut Vec<u8>, n: u8) -> io::Result<()>
    ensures { OnOk result (out.new.items ≡ out.old.items ++ spec.weekday_text n) }
{
    write!(out, "{}", weekday_text(n))
}

/// Writes a calendar by its name, with its offset.
fn write_calendar(out: &mut Vec<u8>, name: &Text, offset: &Option<Offset>) -> io::Result<()>
    ensures { OnOk result (out.new.items ≡ out.old.items ++ (name.now ++ spec.offset_text offset.now)) }
{
    write!(out, "{}", name.as_str())?;
    write_offset(out, offset)
}

/// Writes days on which a stream runs.
#[tactic(auto, unfolding(crate::specs::Streams::item_text))]
fn write_item(out: &mut Vec<u8>, item: &OnItem) -> io::Result<()>
    ensures { OnOk result (out.new.items ≡ out.old.items ++ spec.item_text item.now) }
{
    match item {
        OnItem::Weekday(n) => write_weekday(out, *n),
        OnItem::EveryDay => write!(out, "EVERYDAY"),
        OnItem::Weekdays => write!(out, "WEEKDAYS"),
        OnItem::Workdays => write!(out, "WORKDAYS"),
        OnItem::FreeDays => write!(out, "FREEDAYS"),
        OnItem::Request => write!(out, "REQUEST"),
        OnItem::Date(day) => write_date(out, *day),
        OnItem::Rule(rule) => write_quoted(out, rule),
        OnItem::Calendar(name, offset) => write_calendar(out, name, offset),
    }
}

fn write_items(out: &mut Vec<u8>, all: &[OnItem]) -> io::Result<()>
    ensures { OnOk result (out.new.items ≡ out.old.items
        ++ texts_from (codes ", ") (codes " ") false (map spec.item_text all.now)) }
{
    let mut begun = false;
    for item in all {
        write_lead(out, ", ", " ", begun)?;
        write_item(out, item)?;
        begun = true;
    }
    Ok(())
}

#[tactic(auto, unfolding(crate::specs::Streams::from_text))]
fn write_from(out: &mut Vec<u8>, day: &Option<u32>) -> io::Result<()>
    ensures { OnOk result (out.new.items ≡ out.old.items ++ spec.from_text day.now) }
{
    match day {
        None => Ok(()),
        Some(n) => {
            write!(out, " VALIDFROM ")?;
            write_date(out, *n)
        }
    }
}

#[tactic(auto, unfolding(crate::specs::Streams::to_text))]
fn write_to(out: &mut Vec<u8>, day: &Option<u32>) -> io::Result<()>
    ensures { OnOk result (out.new.items ≡ out.old.items ++ spec.to_text day.now) }
{
    match day {
        None => Ok(()),
        Some(n) => {
            write!(out, " VALIDTO ")?;
            write_date(out, *n)
        }
    }
}

#[tactic(auto, unfolding(crate::specs::Streams::cycle_text))]
fn write_cycle(out: &mut Vec<u8>, cycle: &Option<CycleDef>) -> io::Result<()>
    ensures { OnOk result (out.new.items ≡ out.old.items ++ spec.cycle_text cycle.now) }
{
    match cycle {
        None => Ok(()),
        Some(found) => {
            write!(out, " RUNCYCLE {}", found.name.as_str())?;
            write_from(out, &found.first)?;
            write_to(out, &found.last)
        }
    }
}

#[tactic(auto, unfolding(crate::specs::Streams::shift_text))]
fn write_shift(out: &mut Vec<u8>, shift: &Option<Shift>) -> io::Result<()>
    ensures { OnOk result (out.new.items ≡ out.old.items ++ spec.shift_text shift.now) }
{
    match shift {
        None => Ok(()),
        Some(Shift::Ignore) => write!(out, " FDIGNORE"),
        Some(Shift::Next) => write!(out, " FDNEXT"),
        Some(Shift::Prev) => write!(out, " FDPREV"),
    }
}

fn on_word(except: bool) -> &'static str
    ensures { result.now ≡ spec.on_word except }
{
    if except { " EXCEPT" } else { " ON" }
}

#[tactic(auto, unfolding(crate::specs::Streams::on_text))]
fn write_on(out: &mut Vec<u8>, on: &OnDef) -> io::Result<()>
    ensures { OnOk result (out.new.items ≡ out.old.items ++ spec.on_text on.now) }
{
    let word = on_word(on.except);
    write!(out, "{word}")?;
    write_cycle(out, &on.cycle)?;
    write_items(out, on.items.as_slice())?;
    write_shift(out, &on.shift)
}

/// Writes the run cycles of a stream, behind what stands before them on its line.
pub(crate) fn write_ons(out: &mut Vec<u8>, ons: &[Lined<OnDef>]) -> io::Result<()>
    ensures { OnOk result (out.new.items ≡ out.old.items ++ flat_map spec.on_text (items (map bare ons.now))) }
{
    for on in ons {
        write_on(out, &on.item)?;
    }
    Ok(())
}
