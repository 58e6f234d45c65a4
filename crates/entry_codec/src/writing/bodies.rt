//! What entries say.
ghost use Rattle.std.specs.Prelude.{◌≡◌, ◌++◌, ◌∷◌, OnOk};
ghost use Rattle.model.specs.Fields.{flag_bytes, i32_bytes, u16_bytes, u32_bytes};
ghost use Rattle.std.specs.List.{All};
ghost use Rattle.model.specs.Fit.{IsFitBody, IsFitSeen};
ghost use Rattle.model.specs.Ranges.{BodyInRange, CountInRange, IsI32, IsU16, IsU32};
ghost use Rattle.model.specs.Spelling.{body_bytes, seen_bytes};

use crate::writing::choices::{put_long, put_numbered, put_short};
use crate::writing::commands::put_cmd;
use crate::writing::lists::{Put, put_flag, put_list};
use crate::writing::parts::{put_dependency, put_seen, until_choice, why_choice};
use base_types::{Body, Bytes, JobNo, NoMemory, Seen, StreamNo, Ws};
use byte_fields::{put_i32, put_u8, put_u32};

/// Adds a body: its kind and its fields.
#[tactic(auto, unfolding(model::specs::Spelling::body_bytes))]
pub(crate) fn put_body(out: &mut Bytes, body: &Body) -> Result<(), NoMemory>
    requires { IsFitBody body.now }
    ensures added { OnOk result (out.new ≡ out.old ++ body_bytes body.now) }
    ensures range { OnOk result (BodyInRange body.now) }
{
    match body {
        Body::NewPlan(run, cut, carried, docs) => {
            put_numbered(out, 1, *run)?;
            put_seen(out, cut)?;
            put_list(out, carried)?;
            put_list(out, docs.docs())
        }
        Body::Added(issuer, order, doc) => {
            put_answer(out, 2, issuer, *order)?;
            doc.put(out)
        }
        Body::Clock(time) => put_long(out, 3, time.0),
        Body::Released(stream, seen) => put_decision(out, 4, stream, seen),
        Body::StreamEnded(stream, seen) => put_decision(out, 5, stream, seen),
        Body::UntilPassed(obj, dep, mark) => {
            put_dependency(out, 6, obj, *dep)?;
            put_u8(out, until_choice(*mark))
        }
        Body::Launched(job, number, seen) => put_launched(out, job, *number, seen),
        Body::Started(job, number) => put_launch(out, 8, job, *number),
        Body::Failed(job, number) => put_launch(out, 9, job, *number),
        Body::Ended(job, number, code, good) => put_ended(out, job, *number, *code, *good),
        Body::Lost(job, number) => put_launch(out, 11, job, *number),
        Body::Fulfilled(obj, dep) => put_dependency(out, 12, obj, *dep),
        Body::Obeyed(issuer, order, cmd) => {
            put_answer(out, 13, issuer, *order)?;
            put_cmd(out, cmd)
        }
        Body::Declined(issuer, order, why) => {
            put_answer(out, 14, issuer, *order)?;
            put_u8(out, why_choice(*why))
        }
        Body::Order(cmd) => {
            put_u8(out, 15)?;
            put_cmd(out, cmd)
        }
        Body::Late(obj, dep) => put_dependency(out, 16, obj, *dep),
    }
}

/// Adds a kind, and the issuer and the place of the order that is answered.
fn put_answer(out: &mut Bytes, kind: u8, issuer: &Ws, order: u32) -> Result<(), NoMemory>
    ensures added { OnOk result (out.new ≡ out.old ++ (kind ∷ u16_bytes issuer.now ++ u32_bytes order)) }
    ensures range { OnOk result (IsU16 issuer.now × IsU32 order) }
{
    put_short(out, kind, issuer.0)?;
    put_u32(out, order)
}

/// Adds a kind, a stream and what the decision stands on.
fn put_decision(out: &mut Bytes, kind: u8, stream: &StreamNo, seen: &Seen) -> Result<(), NoMemory>
    requires { IsFitSeen seen.now }
    ensures added { OnOk result (out.new ≡ out.old ++ (kind ∷ u32_bytes stream.now ++ seen_bytes seen.now)) }
    ensures range { OnOk result (IsU32 stream.now × All CountInRange seen.now) }
{
    put_numbered(out, kind, stream.0)?;
    put_seen(out, seen)
}

/// Adds a kind, a job and the number of its launch.
fn put_launch(out: &mut Bytes, kind: u8, job: &JobNo, number: u32) -> Result<(), NoMemory>
    ensures added { OnOk result (out.new ≡ out.old ++ (kind ∷ u32_bytes job.now ++ u32_bytes number)) }
    ensures range { OnOk result (IsU32 job.now × IsU32 number) }
{
    put_numbered(out, kind, job.0)?;
    put_u32(out, number)
}

/// Adds the kind of a launch, the job, the number of the launch and what it stands on.
fn put_launched(out: &mut Bytes, job: &JobNo, number: u32, seen: &Seen) -> Result<(), NoMemory>
    requires { IsFitSeen seen.now }
    ensures added { OnOk result (out.new ≡ out.old
        ++ (7 ∷ u32_bytes job.now ++ u32_bytes number ++ seen_bytes seen.now)) }
    ensures range { OnOk result (IsU32 job.now × IsU32 number × All CountInRange seen.now) }
{
    put_launch(out, 7, job, number)?;
    put_seen(out, seen)
}

/// Adds the kind of an end, the job, the number of the launch, the return code and whether it is a good one.
fn put_ended(
    out: &mut Bytes,
    job: &JobNo,
    number: u32,
    code: i32,
    good: bool,
) -> Result<(), NoMemory>
    ensures added { OnOk result (out.new ≡ out.old
        ++ (10 ∷ u32_bytes job.now ++ u32_bytes number ++ i32_bytes code ++ flag_bytes good)) }
    ensures range { OnOk result (IsU32 job.now × IsU32 number × IsI32 code) }
{
    put_launch(out, 10, job, number)?;
    put_i32(out, code)?;
    put_flag(out, good)
}
