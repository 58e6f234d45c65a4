//! The documents of streams and jobs, and their parts.
ghost use Rattle.std.specs.Prelude.{◌≡◌, ◌++◌, IsUtf8, OnOk};
ghost use Rattle.std.specs.List.{All};
ghost use Rattle.model.specs.Fields.{i32_bytes, text_bytes, u8_bytes, u16_bytes};
ghost use Rattle.model.specs.Fit.{IsFitCond, IsFitStream, IsFitText, IsFitWork};
ghost use Rattle.model.specs.Ranges.{IsU8, IsU16, OpInRange, WorkInRange};
ghost use Rattle.model.specs.Spelling.{cond_bytes, op_bytes, stream_doc_bytes, work_bytes};
ghost use Rattle.model.specs.Spelling as spelled;

use crate::writing::choices::put_worded;
use crate::writing::lists::{Put, put_flag, put_limit, put_list};
use crate::writing::parts::recovery_choice;
use base_types::{Bytes, Cond, CondOp, JobDoc, NoMemory, Recovery, Rel, StreamDoc, Text, Work, Ws};
use byte_fields::{put_i32, put_text, put_u8, put_u16, put_u32};

impl Put for JobDoc {
    ghost use Rattle.model.specs.Fit.{IsFitJob};
    ghost use Rattle.model.specs.Ranges.{JobInRange};
    ghost use Rattle.model.specs.Spelling.{job_doc_bytes};

    ghost is_fit = { IsFitJob };

    ghost in_range = { JobInRange };

    ghost spelling = { job_doc_bytes };

    #[tactic(auto, unfolding(model::specs::Spelling::job_doc_bytes))]
    fn put(&self, out: &mut Bytes) -> Result<(), NoMemory> {
        put_u32(out, self.no.0)?;
        put_named(out, &self.ws, &self.name, self.priority)?;
        put_task(out, &self.work, &self.logon, &self.cond, self.recovery)?;
        put_list(out, &self.deps)
    }
}

impl Put for StreamDoc {
    ghost use Rattle.model.specs.Fit.{IsFitStream};
    ghost use Rattle.model.specs.Ranges.{StreamInRange};
    ghost use Rattle.model.specs.Spelling.{stream_doc_bytes};

    ghost is_fit = { IsFitStream };

    ghost in_range = { StreamInRange };

    ghost spelling = { stream_doc_bytes };

    #[tactic(auto, unfolding(model::specs::Spelling::stream_doc_bytes))]
    fn put(&self, out: &mut Bytes) -> Result<(), NoMemory> {
        put_u32(out, self.no.0)?;
        put_named(out, &self.ws, &self.name, self.priority)?;
        put_limit(out, self.limit)?;
        put_flag(out, self.carry)?;
        put_list(out, &self.deps)?;
        put_list(out, &self.jobs)
    }
}

/// Adds the bytes of a stream's document. Where memory runs out, a part of them may have been added.
pub fn put_stream(out: &mut Bytes, doc: &StreamDoc) -> Result<(), NoMemory>
    requires { IsFitStream doc.now }
    ensures { OnOk result (out.new ≡ out.old ++ stream_doc_bytes doc.now) }
{
    doc.put(out)
}

/// Adds what documents and drafts begin with: the workstation, the name and the priority.
pub(crate) fn put_named(out: &mut Bytes, ws: &Ws, name: &Text, priority: u8) -> Result<(), NoMemory>
    requires { IsFitText name.now }
    ensures added { OnOk result (out.new ≡ out.old
        ++ (u16_bytes ws.now ++ text_bytes name.now ++ u8_bytes priority)) }
    ensures range { OnOk result (IsU16 ws.now × IsUtf8 name.now × IsU8 priority) }
{
    put_u16(out, ws.0)?;
    put_text(out, name.as_str())?;
    put_u8(out, priority)
}

/// Adds what a job runs, for whom, and what its end means.
pub(crate) fn put_task(
    out: &mut Bytes,
    work: &Work,
    logon: &Text,
    cond: &Cond,
    recovery: Recovery,
) -> Result<(), NoMemory>
    requires { IsFitWork work.now × IsFitText logon.now × IsFitCond cond.now }
    ensures added { OnOk result (out.new ≡ out.old ++ (work_bytes work.now ++ text_bytes logon.now
        ++ cond_bytes cond.now ++ u8_bytes (spelled.recovery_code recovery))) }
    ensures range { OnOk result (WorkInRange work.now × IsUtf8 logon.now × All OpInRange cond.now) }
{
    put_work(out, work)?;
    put_text(out, logon.as_str())?;
    put_cond(out, cond)?;
    put_u8(out, recovery_choice(recovery))
}

/// Adds what a job runs: its choice and its text.
fn put_work(out: &mut Bytes, work: &Work) -> Result<(), NoMemory>
    requires { IsFitWork work.now }
    ensures added { OnOk result (out.new ≡ out.old ++ work_bytes work.now) }
    ensures range { OnOk result (WorkInRange work.now) }
{
    match work {
        Work::Command(text) => put_worded(out, 0, text.as_str()),
        Work::Script(text) => put_worded(out, 1, text.as_str()),
    }
}

/// Adds a condition: the count of its operations in one byte, and each of them.
#[tactic(auto, unfolding(model::specs::Spelling::cond_bytes))]
fn put_cond(out: &mut Bytes, ops: &Cond) -> Result<(), NoMemory>
    requires { IsFitCond ops.now }
    ensures added { OnOk result (out.new ≡ out.old ++ cond_bytes ops.now) }
    ensures range { OnOk result (All OpInRange ops.now) }
{
    put_u8(out, ops.len() as u8)?;
    for op in ops.as_slice() {
        put_op(out, op)?;
    }
    Ok(())
}

fn put_op(out: &mut Bytes, op: &CondOp) -> Result<(), NoMemory>
    ensures added { OnOk result (out.new ≡ out.old ++ op_bytes op.now) }
    ensures range { OnOk result (OpInRange op.now) }
{
    match op {
        CondOp::Cmp(rel, code) => {
            put_u8(out, rel_choice(*rel))?;
            put_i32(out, *code)
        }
        CondOp::And => put_u8(out, 6),
        CondOp::Or => put_u8(out, 7),
        CondOp::Not => put_u8(out, 8),
    }
}

fn rel_choice(rel: Rel) -> u8
    ensures { result ≡ spelled.rel_code rel }
{
    match rel {
        Rel::Eq => 0,
        Rel::Ne => 1,
        Rel::Lt => 2,
        Rel::Le => 3,
        Rel::Gt => 4,
        Rel::Ge => 5,
    }
}
