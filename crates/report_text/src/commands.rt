//! The commands of operators.
ghost use Rattle.std.specs.Prelude.{◌≡◌, ◌++◌, OnOk, codes};
ghost use Rattle.std.specs.Fmt.{decimal};
ghost use Rattle.report_text.specs.Dependencies.{obj_text, dep_text};
ghost use Rattle.report_text.specs.Commands as spec;

use crate::dependencies::{write_dep, write_obj, write_obj_number};
use crate::names::name;
use crate::words::{write_number, write_two, write_words};
use base_types::{Cmd, Dep, Net, Obj};
use std::io::{self, Write};

/// Writes a command with what it was given.
#[tactic(auto, unfolding(crate::specs::Commands::cmd_text))]
pub(crate) fn write_cmd(out: &mut Vec<u8>, net: &Net, cmd: &Cmd) -> io::Result<()>
    ensures { OnOk result (out.new.items ≡ out.old.items ++ spec.cmd_text net.now cmd.now) }
{
    match cmd {
        Cmd::AddDep(obj, dep) => write_add_dep(out, obj, dep),
        Cmd::DelDep(obj, number) => write_obj_number(out, "deldep ", obj, " ", *number),
        Cmd::Release(obj) => write_obj(out, "release ", obj),
        Cmd::AltPri(obj, priority) => write_obj_number(
            out,
            "altpri ",
            obj,
            " ",
            u16::from(*priority),
        ),
        Cmd::Cancel(obj) => write_obj(out, "cancel ", obj),
        Cmd::Confirm(job) => write_number(out, "confirm job ", job.0),
        Cmd::Kill(job) => write_number(out, "kill job ", job.0),
        Cmd::Rerun(job) => write_number(out, "rerun job ", job.0),
        Cmd::Fence(priority) => write_number(out, "fence ", u32::from(*priority)),
        Cmd::Limit(limit) => write_number(out, "limit ", u32::from(*limit)),
        Cmd::StreamLimit(stream, limit) => write_two(
            out,
            "limit stream ",
            stream.0,
            u32::from(*limit),
        ),
        Cmd::Total(resource, units) => write_two(
            out,
            "total ",
            u32::from(*resource),
            u32::from(*units),
        ),
        Cmd::ReplyGlobal(prompt, yes) => write_reply_to_all(out, *prompt, *yes),
        Cmd::ReplyOwn(obj, number, yes) => write_reply(out, obj, *number, *yes),
        Cmd::Start => write!(out, "start"),
        Cmd::Stop => write!(out, "stop"),
        Cmd::Submit(draft) => write_words(out, "submit ", draft.name.as_str()),
        Cmd::SwitchMgr(ws) => write_words(out, "switchmgr ", name(net, ws)),
    }
}

fn write_add_dep(out: &mut Vec<u8>, obj: &Obj, dep: &Dep) -> io::Result<()>
    ensures { OnOk result (out.new.items ≡ out.old.items ++
        (codes "adddep " ++ obj_text obj.now ++ codes " " ++ dep_text dep.now)) }
{
    write_obj(out, "adddep ", obj)?;
    write!(out, " ")?;
    write_dep(out, dep)
}

fn write_reply_to_all(out: &mut Vec<u8>, prompt: u16, yes: bool) -> io::Result<()>
    ensures { OnOk result (out.new.items ≡ out.old.items ++
        (codes "reply prompt " ++ decimal prompt ++ codes " " ++ spec.answer_word yes)) }
{
    write!(out, "reply prompt {prompt} {}", answer_word(yes))
}

fn write_reply(out: &mut Vec<u8>, obj: &Obj, number: u16, yes: bool) -> io::Result<()>
    ensures { OnOk result (out.new.items ≡ out.old.items ++
        (codes "reply " ++ obj_text obj.now ++ codes " " ++ decimal number ++ codes " " ++ spec.answer_word yes)) }
{
    write_obj_number(out, "reply ", obj, " ", number)?;
    write_words(out, " ", answer_word(yes))
}

fn answer_word(yes: bool) -> &'static str
    ensures { result.now ≡ spec.answer_word yes }
{
    if yes { "yes" } else { "no" }
}
