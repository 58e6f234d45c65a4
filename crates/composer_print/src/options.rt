//! Options.
ghost use Rattle.std.specs.Prelude.{◌≡◌, ◌++◌, IfOk, OnOk, false, codes, option_map};
ghost use Rattle.std.specs.Str.{bytes_eq};
ghost use Rattle.composer_print.specs.Texts.{begun_after, texts_from, unless, item_of};
ghost use Rattle.composer_print.specs.Normal.{unlined};
ghost use Rattle.composer_print.specs.Stations as spec;

use crate::days::write_time;
use crate::leads::write_lead;
use base_types::{Carry, Text};
use composer_parser::{Defs, Lined};
use std::io::{self, Write};
use syntax::write_quoted;

/// Writes when a day begins, where that is not the default. Answers whether a line was begun.
#[tactic(auto, unfolding(crate::specs::Stations::start_texts))]
fn write_start(out: &mut Vec<u8>, start: &Option<Lined<u16>>) -> io::Result<bool>
    ensures text { OnOk result (out.new.items ≡ out.old.items
        ++ texts_from (codes " ") (codes "$OPTIONS\n") false (spec.start_texts (unless 360 (item_of start.now)))) }
    ensures begun { IfOk result (λ b. b ≡ begun_after false (spec.start_texts (unless 360 (item_of start.now)))) }
{
    match start {
        None => Ok(false),
        Some(time) => {
            if time.item == 360 {
                return Ok(false);
            }
            write_lead(out, " ", "$OPTIONS\n", false)?;
            write!(out, "STARTOFDAY ")?;
            write_time(out, time.item)?;
            Ok(true)
        }
    }
}

fn is_utc(zone: &Text) -> bool
    ensures { result ≡ bytes_eq zone.now (codes "UTC") }
{
    zone.as_str() == "UTC"
}

/// Writes the time zone, where it is not the default. Answers whether a line was begun.
#[tactic(auto, unfolding(crate::specs::Stations::zone_texts))]
fn write_zone(out: &mut Vec<u8>, zone: &Option<Lined<Text>>, begun: bool) -> io::Result<bool>
    ensures text { OnOk result (out.new.items ≡ out.old.items
        ++ texts_from (codes " ") (codes "$OPTIONS\n") begun (spec.zone_texts (spec.unless_utc (item_of zone.now)))) }
    ensures begun { IfOk result (λ b. b ≡ begun_after begun (spec.zone_texts (spec.unless_utc (item_of zone.now)))) }
{
    match zone {
        None => Ok(begun),
        Some(text) => {
            if is_utc(&text.item) {
                return Ok(begun);
            }
            write_lead(out, " ", "$OPTIONS\n", begun)?;
            write!(out, "TIMEZONE ")?;
            write_quoted(out, &text.item)?;
            Ok(true)
        }
    }
}

fn is_yes(carry: Carry) -> bool
    ensures { result ≡ spec.is_yes carry }
{
    matches!(carry, Carry::Yes)
}

fn carry_word(carry: Carry) -> &'static str
    ensures { result.now ≡ spec.carry_word carry }
{
    match carry {
        Carry::Yes => "YES",
        Carry::No => "NO",
        Carry::All => "ALL",
    }
}

/// Writes what is carried forward, where it is not the default. Answers whether a line was begun.
#[tactic(auto, unfolding(crate::specs::Stations::carry_texts))]
fn write_carry(out: &mut Vec<u8>, carry: &Option<Lined<Carry>>, begun: bool) -> io::Result<bool>
    ensures text { OnOk result (out.new.items ≡ out.old.items
        ++ texts_from (codes " ") (codes "$OPTIONS\n") begun (spec.carry_texts (spec.unless_yes (item_of carry.now)))) }
    ensures begun { IfOk result (λ b. b ≡ begun_after begun (spec.carry_texts (spec.unless_yes (item_of carry.now)))) }
{
    match carry {
        None => Ok(begun),
        Some(word) => {
            if is_yes(word.item) {
                return Ok(begun);
            }
            write_lead(out, " ", "$OPTIONS\n", begun)?;
            let name = carry_word(word.item);
            write!(out, "ENCARRYFORWARD ")?;
            write!(out, "{name}")?;
            Ok(true)
        }
    }
}

fn write_end(out: &mut Vec<u8>, begun: bool) -> io::Result<()>
    ensures { OnOk result (out.new.items ≡ out.old.items ++ spec.ended begun) }
{
    if begun {
        return write!(out, "\n");
    }
    Ok(())
}

/// Writes the options that are not the defaults.
pub(crate) fn write_options(out: &mut Vec<u8>, defs: &Defs) -> io::Result<()>
    ensures { OnOk result (out.new.items ≡ out.old.items ++ spec.options_text
        (item_of (option_map unlined (unless 360 (item_of defs.now.start))))
        (item_of (option_map unlined (spec.unless_utc (item_of defs.now.zone))))
        (item_of (option_map unlined (spec.unless_yes (item_of defs.now.carry))))) }
{
    let begun = write_start(out, &defs.start)?;
    let more = write_zone(out, &defs.zone, begun)?;
    let all = write_carry(out, &defs.carry, more)?;
    write_end(out, all)?;
    Ok(())
}
