//! Names with the workstations that they get.
ghost use Rattle.std.specs.Prelude.{◌≡◌, ◌++◌, OnOk};
ghost use Rattle.composer_print.specs.Texts.{unless};
ghost use Rattle.composer_print.specs.Clauses.{name_text, units_text, part_text, pred_text, need_text};
ghost use Rattle.composer_print.specs.Scopes as spec;

use crate::jobs::Jobs;
use base_types::Text;
use composer_parser::{Need, Pred, PredPart};
use std::io::{self, Write};

/// The workstation that is written, and another one where none is.
pub(crate) fn or_home<'a>(ws: &'a Option<Text>, home: &'a Option<Text>) -> &'a Option<Text>
    ensures { result.now ≡ spec.or_home ws.now home.now }
{
    match ws {
        None => home,
        Some(_) => ws,
    }
}

/// Writes `[ws#]name`.
#[tactic(auto, unfolding(crate::specs::Clauses::name_text))]
pub(crate) fn write_name(out: &mut Vec<u8>, ws: &Option<Text>, name: &Text) -> io::Result<()>
    ensures { OnOk result (out.new.items ≡ out.old.items ++ name_text ws.now name.now) }
{
    match ws {
        None => write!(out, "{}", name.as_str()),
        Some(w) => write!(out, "{}#{}", w.as_str(), name.as_str()),
    }
}

fn is_plain(part: &PredPart) -> bool
    ensures { result ≡ spec.is_plain part.now }
{
    match part {
        PredPart::Plain => true,
        PredPart::All => false,
        PredPart::Job(_) => false,
    }
}

/// Whether it is a job of the same stream, by its name alone.
fn is_own<'a>(jobs: &Jobs<'a>, pred: &'a Pred) -> bool
    ensures { result ≡ spec.is_own jobs.now pred.now }
{
    is_plain(&pred.part) && (pred.ws.is_none() && jobs.has(&pred.name))
}

fn pred_ws<'a>(jobs: &Jobs<'a>, home: &'a Option<Text>, pred: &'a Pred) -> &'a Option<Text>
    ensures { result.now ≡ spec.pred_ws jobs.now home.now pred.now }
{
    if is_own(jobs, pred) {
        return &pred.ws;
    }
    or_home(&pred.ws, home)
}

#[tactic(auto, unfolding(crate::specs::Clauses::part_text))]
fn write_part(out: &mut Vec<u8>, part: &PredPart, ws: &Option<Text>) -> io::Result<()>
    ensures { OnOk result (out.new.items ≡ out.old.items ++ part_text (spec.whole_part part.now ws.now)) }
{
    match part {
        PredPart::Plain => Ok(()),
        PredPart::All => match ws {
            None => write!(out, ".@"),
            Some(_) => Ok(()),
        },
        PredPart::Job(job) => write!(out, ".{}", job.as_str()),
    }
}

/// Writes what is followed.
#[tactic(auto, unfolding(crate::specs::Clauses::pred_text, crate::specs::Scopes::normal_pred))]
pub(crate) fn write_pred<'a>(
    out: &mut Vec<u8>,
    jobs: &Jobs<'a>,
    home: &'a Option<Text>,
    pred: &'a Pred,
) -> io::Result<()>
    ensures { OnOk result (out.new.items ≡ out.old.items ++ pred_text (spec.normal_pred jobs.now home.now pred.now)) }
{
    let ws = pred_ws(jobs, home, pred);
    write_name(out, ws, &pred.name)?;
    write_part(out, &pred.part, ws)
}

#[tactic(auto, unfolding(crate::specs::Clauses::units_text))]
fn write_units(out: &mut Vec<u8>, units: &Option<u32>) -> io::Result<()>
    ensures { OnOk result (out.new.items ≡ out.old.items ++ units_text (unless 1 units.now)) }
{
    match units {
        None => Ok(()),
        Some(n) => {
            if *n == 1 {
                return Ok(());
            }
            write!(out, "{} ", *n)
        }
    }
}

/// Writes a resource that is needed.
#[tactic(auto, unfolding(crate::specs::Clauses::need_text, crate::specs::Scopes::normal_need))]
pub(crate) fn write_need(out: &mut Vec<u8>, own: &Option<Text>, need: &Need) -> io::Result<()>
    ensures { OnOk result (out.new.items ≡ out.old.items ++ need_text (spec.normal_need own.now need.now)) }
{
    write_units(out, &need.units)?;
    write_name(out, or_home(&need.ws, own), &need.name)
}
