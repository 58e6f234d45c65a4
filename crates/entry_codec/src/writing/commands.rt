//! Commands.
ghost use Rattle.std.specs.Prelude.{◌≡◌, ◌++◌, OnOk};
ghost use Rattle.model.specs.Fit.{IsFitCmd};
ghost use Rattle.model.specs.Ranges.{CmdInRange};
ghost use Rattle.model.specs.Spelling.{cmd_bytes};

use crate::writing::choices::{put_numbered, put_short, put_shorts};
use crate::writing::lists::{Put, put_flag};
use crate::writing::parts::{put_dependency, put_for};
use base_types::{Bytes, Cmd, NoMemory};
use byte_fields::{put_u8, put_u16};

/// Adds a command: its choice and its fields.
#[tactic(auto, unfolding(model::specs::Spelling::cmd_bytes))]
pub(crate) fn put_cmd(out: &mut Bytes, cmd: &Cmd) -> Result<(), NoMemory>
    requires { IsFitCmd cmd.now }
    ensures added { OnOk result (out.new ≡ out.old ++ cmd_bytes cmd.now) }
    ensures range { OnOk result (CmdInRange cmd.now) }
{
    match cmd {
        Cmd::AddDep(obj, dep) => {
            put_for(out, 1, obj)?;
            dep.put(out)
        }
        Cmd::DelDep(obj, dep) => put_dependency(out, 2, obj, *dep),
        Cmd::Release(obj) => put_for(out, 3, obj),
        Cmd::AltPri(obj, priority) => {
            put_for(out, 4, obj)?;
            put_u8(out, *priority)
        }
        Cmd::Cancel(obj) => put_for(out, 5, obj),
        Cmd::Confirm(job) => put_numbered(out, 6, job.0),
        Cmd::Kill(job) => put_numbered(out, 7, job.0),
        Cmd::Rerun(job) => put_numbered(out, 8, job.0),
        Cmd::Fence(priority) => {
            put_u8(out, 9)?;
            put_u8(out, *priority)
        }
        Cmd::Limit(limit) => put_short(out, 10, *limit),
        Cmd::StreamLimit(stream, limit) => {
            put_numbered(out, 11, stream.0)?;
            put_u16(out, *limit)
        }
        Cmd::Total(resource, total) => put_shorts(out, 12, *resource, *total),
        Cmd::ReplyGlobal(prompt, yes) => {
            put_short(out, 13, *prompt)?;
            put_flag(out, *yes)
        }
        Cmd::ReplyOwn(obj, dep, yes) => {
            put_dependency(out, 14, obj, *dep)?;
            put_flag(out, *yes)
        }
        Cmd::Start => put_u8(out, 15),
        Cmd::Stop => put_u8(out, 16),
        Cmd::Submit(draft) => {
            put_u8(out, 17)?;
            draft.put(out)
        }
        Cmd::SwitchMgr(ws) => put_short(out, 18, ws.0),
    }
}
