//! What an entry says.
ghost use Rattle.std.specs.Prelude.{◌≡◌, ◌++◌, OnOk, codes, map};
ghost use Rattle.std.specs.Fmt.{decimal, signed_decimal};
ghost use Rattle.base_types.specs.declared.StreamDoc.{StreamDoc};
ghost use Rattle.report_text.specs.Names.{name_of};
ghost use Rattle.report_text.specs.Lists.{numbers_text, seen_text};
ghost use Rattle.report_text.specs.Dependencies.{obj_text, until_word as until_text};
ghost use Rattle.report_text.specs.Commands.{cmd_text};
ghost use Rattle.report_text.specs.Bodies as spec;

use crate::commands::write_cmd;
use crate::dependencies::{until_word, write_obj_number};
use crate::lists::{write_numbers, write_numbers_of, write_seen};
use crate::names::name;
use crate::words::{write_number, write_time, write_two, write_words};
use base_types::{Body, Cmd, Net, Obj, OnUntil, Seen, SharedDocs, StreamDoc, StreamNos, Why, Ws};
use std::io::{self, Write};

/// Writes what an entry says.
#[tactic(auto, unfolding(crate::specs::Bodies::body_text))]
pub(crate) fn write_body(out: &mut Vec<u8>, net: &Net, body: &Body) -> io::Result<()>
    ensures { OnOk result (out.new.items ≡ out.old.items ++ spec.body_text net.now body.now) }
{
    match body {
        Body::NewPlan(run, cut, carried, streams) => {
            write_new_plan(out, net, *run, cut, carried, streams)
        }
        Body::Added(from, place, stream) => write_added(out, net, from, *place, stream),
        Body::Clock(time) => write_time(out, "clock ", time),
        Body::Released(no, seen) => write_with_seen(out, net, "released ", no.0, seen),
        Body::StreamEnded(no, seen) => write_with_seen(out, net, "streamended ", no.0, seen),
        Body::UntilPassed(obj, number, then) => {
            write_passed(out, "untilpassed ", obj, *number, *then)
        }
        Body::Launched(job, number, seen) => write_launched(out, net, job.0, *number, seen),
        Body::Started(job, number) => write_two(out, "started ", job.0, *number),
        Body::Failed(job, number) => write_two(out, "failed ", job.0, *number),
        Body::Ended(job, number, rc, good) => write_ended(out, job.0, *number, *rc, *good),
        Body::Lost(job, number) => write_two(out, "lost ", job.0, *number),
        Body::Fulfilled(obj, number) => write_obj_number(out, "fulfilled ", obj, " dep ", *number),
        Body::Obeyed(from, place, cmd) => write_obeyed(out, net, from, *place, cmd),
        Body::Declined(from, place, why) => write_declined(out, net, from, *place, *why),
        Body::Order(cmd) => write_with_cmd(out, net, "order ", cmd),
        Body::Late(obj, number) => write_obj_number(out, "late ", obj, " dep ", *number),
    }
}

fn write_new_plan(
    out: &mut Vec<u8>,
    net: &Net,
    run: u32,
    cut: &Seen,
    carried: &StreamNos,
    streams: &SharedDocs,
) -> io::Result<()>
    ensures { OnOk result (out.new.items ≡ out.old.items ++
        (codes "newplan " ++ decimal run
        ++ codes " cut " ++ seen_text net.now cut.now
        ++ codes " carried " ++ numbers_text carried.now
        ++ codes " fresh " ++ numbers_text (map (λ (s : StreamDoc). s.no) streams.now))) }
{
    write_number(out, "newplan ", run)?;
    write_seen(out, net, " cut ", cut.as_slice())?;
    write_numbers(out, " carried ", carried.as_slice())?;
    write_numbers_of(out, " fresh ", streams.as_slice())
}

fn write_added(
    out: &mut Vec<u8>,
    net: &Net,
    from: &Ws,
    place: u32,
    stream: &StreamDoc,
) -> io::Result<()>
    ensures { OnOk result (out.new.items ≡ out.old.items ++
        (codes "added " ++ name_of net.now from.now ++ codes " " ++ decimal place
        ++ codes " stream " ++ decimal stream.now.no)) }
{
    write_order_of(out, net, "added ", from, place)?;
    write_number(out, " stream ", stream.no.0)
}

fn write_with_seen(
    out: &mut Vec<u8>,
    net: &Net,
    word: &str,
    stream: u32,
    seen: &Seen,
) -> io::Result<()>
    ensures { OnOk result (out.new.items ≡ out.old.items ++
        (word.now ++ decimal stream ++ codes " seen " ++ seen_text net.now seen.now)) }
{
    write_number(out, word, stream)?;
    write_seen(out, net, " seen ", seen.as_slice())
}

fn write_launched(
    out: &mut Vec<u8>,
    net: &Net,
    job: u32,
    number: u32,
    seen: &Seen,
) -> io::Result<()>
    ensures { OnOk result (out.new.items ≡ out.old.items ++
        (codes "launched " ++ decimal job ++ codes " " ++ decimal number
        ++ codes " seen " ++ seen_text net.now seen.now)) }
{
    write_two(out, "launched ", job, number)?;
    write_seen(out, net, " seen ", seen.as_slice())
}

fn write_ended(out: &mut Vec<u8>, job: u32, number: u32, rc: i32, good: bool) -> io::Result<()>
    ensures { OnOk result (out.new.items ≡ out.old.items ++
        (codes "ended " ++ decimal job ++ codes " " ++ decimal number
        ++ codes " rc " ++ signed_decimal rc ++ codes " " ++ spec.end_word good)) }
{
    write_two(out, "ended ", job, number)?;
    write!(out, " rc {rc} {}", end_word(good))
}

fn write_passed(
    out: &mut Vec<u8>,
    word: &str,
    obj: &Obj,
    number: u16,
    then: OnUntil,
) -> io::Result<()>
    ensures { OnOk result (out.new.items ≡ out.old.items ++
        (word.now ++ obj_text obj.now ++ codes " dep " ++ decimal number ++ codes " " ++ until_text then)) }
{
    write_obj_number(out, word, obj, " dep ", number)?;
    write_words(out, " ", until_word(then))
}

fn write_obeyed(out: &mut Vec<u8>, net: &Net, from: &Ws, place: u32, cmd: &Cmd) -> io::Result<()>
    ensures { OnOk result (out.new.items ≡ out.old.items ++
        (codes "obeyed " ++ name_of net.now from.now ++ codes " " ++ decimal place
        ++ codes " " ++ cmd_text net.now cmd.now)) }
{
    write_order_of(out, net, "obeyed ", from, place)?;
    write_with_cmd(out, net, " ", cmd)
}

fn write_declined(out: &mut Vec<u8>, net: &Net, from: &Ws, place: u32, why: Why) -> io::Result<()>
    ensures { OnOk result (out.new.items ≡ out.old.items ++
        (codes "declined " ++ name_of net.now from.now ++ codes " " ++ decimal place
        ++ codes " " ++ spec.why_word why)) }
{
    write_order_of(out, net, "declined ", from, place)?;
    write_words(out, " ", why_word(why))
}

/// Writes a word, the issuer of an order and its place.
fn write_order_of(out: &mut Vec<u8>, net: &Net, word: &str, from: &Ws, place: u32) -> io::Result<()>
    ensures { OnOk result (out.new.items ≡ out.old.items ++
        (word.now ++ name_of net.now from.now ++ codes " " ++ decimal place)) }
{
    write!(out, "{word}{} {place}", name(net, from))
}

fn write_with_cmd(out: &mut Vec<u8>, net: &Net, word: &str, cmd: &Cmd) -> io::Result<()>
    ensures { OnOk result (out.new.items ≡ out.old.items ++ (word.now ++ cmd_text net.now cmd.now)) }
{
    write!(out, "{word}")?;
    write_cmd(out, net, cmd)
}

fn end_word(good: bool) -> &'static str
    ensures { result.now ≡ spec.end_word good }
{
    if good { "good" } else { "bad" }
}

fn why_word(why: Why) -> &'static str
    ensures { result.now ≡ spec.why_word why }
{
    match why {
        Why::NotMine => "NotMine",
        Why::NotThere => "NotThere",
        Why::Running => "Running",
        Why::NotRunning => "NotRunning",
        Why::NotEnded => "NotEnded",
        Why::Ended => "Ended",
        Why::AlreadyThere => "AlreadyThere",
        Why::OutOfRange => "OutOfRange",
        Why::NotMaster => "NotMaster",
        Why::NotBuilt => "NotBuilt",
    }
}
