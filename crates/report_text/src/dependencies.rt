//! Jobs, streams and dependencies.
ghost use Rattle.std.specs.Prelude.{◌≡◌, ◌++◌, OnOk, codes};
ghost use Rattle.std.specs.Fmt.{decimal};
ghost use Rattle.syntax.specs.Quotes.{quoted_text};
ghost use Rattle.report_text.specs.Dependencies as spec;

use crate::words::{write_number, write_time, write_two};
use base_types::{Dep, Moment, Obj, OnUntil, PromptRef, Text};
use std::io::{self, Write};
use syntax::write_quoted;

/// Writes a word and a job or a stream by its number.
#[tactic(auto, unfolding(crate::specs::Dependencies::obj_text))]
pub(crate) fn write_obj(out: &mut Vec<u8>, word: &str, obj: &Obj) -> io::Result<()>
    ensures { OnOk result (out.new.items ≡ out.old.items ++ (word.now ++ spec.obj_text obj.now)) }
{
    match obj {
        Obj::Job(job) => write!(out, "{word}job {}", job.0),
        Obj::Stream(stream) => write!(out, "{word}stream {}", stream.0),
    }
}

/// Writes a word, a job or a stream, and a number behind another word.
pub(crate) fn write_obj_number(
    out: &mut Vec<u8>,
    word: &str,
    obj: &Obj,
    between: &str,
    number: u16,
) -> io::Result<()>
    ensures { OnOk result (out.new.items ≡ out.old.items ++
        (word.now ++ spec.obj_text obj.now ++ between.now ++ decimal number)) }
{
    write_obj(out, word, obj)?;
    write_number(out, between, u32::from(number))
}

/// The word for what comes when a time has passed.
pub(crate) fn until_word(then: OnUntil) -> &'static str
    ensures { result.now ≡ spec.until_word then }
{
    match then {
        OnUntil::Suppr => "suppr",
        OnUntil::Cont => "cont",
        OnUntil::Canc => "canc",
    }
}

/// Writes a dependency.
#[tactic(auto, unfolding(crate::specs::Dependencies::dep_text))]
pub(crate) fn write_dep(out: &mut Vec<u8>, dep: &Dep) -> io::Result<()>
    ensures { OnOk result (out.new.items ≡ out.old.items ++ spec.dep_text dep.now) }
{
    match dep {
        Dep::FollowsJob(job) => write_number(out, "follows job ", job.0),
        Dep::FollowsStream(stream) => write_number(out, "follows stream ", stream.0),
        Dep::Needs(resource, units) => {
            write_two(out, "needs ", u32::from(*resource), u32::from(*units))
        }
        Dep::Prompt(PromptRef::Global(prompt)) => {
            write_number(out, "prompt ", u32::from(*prompt))
        }
        Dep::Prompt(PromptRef::Own(text)) => write_text(out, "prompt ", text),
        Dep::At(time) => write_time(out, "at ", time),
        Dep::Until(time, then) => write_until(out, time, *then),
        Dep::Outside(path) => write_text(out, "outside ", path),
        Dep::Deadline(time) => write_time(out, "deadline ", time),
    }
}

/// Writes a word and a text in quotes.
fn write_text(out: &mut Vec<u8>, word: &str, text: &Text) -> io::Result<()>
    ensures { OnOk result (out.new.items ≡ out.old.items ++ (word.now ++ quoted_text text.now)) }
{
    write!(out, "{word}")?;
    write_quoted(out, text)
}

fn write_until(out: &mut Vec<u8>, time: &Moment, then: OnUntil) -> io::Result<()>
    ensures { OnOk result (out.new.items ≡ out.old.items ++
        (codes "until " ++ decimal time.now ++ codes " " ++ spec.until_word then)) }
{
    write!(out, "until {} {}", time.0, until_word(then))
}
