//! Dependencies, of documents and of drafts.
ghost use Rattle.std.specs.Prelude.{◌≡◌, ◌++◌, IfSome, IsUtf8, OnOk};
ghost use Rattle.model.specs.Fields.{option_bytes, text_bytes};
ghost use Rattle.model.specs.Fit.{IsFitText};

use crate::writing::choices::{put_long, put_numbered, put_short, put_shorts, put_worded};
use crate::writing::lists::Put;
use crate::writing::parts::until_choice;
use base_types::{Bytes, Dep, DraftDep, NoMemory, PromptRef, Text};
use byte_fields::{put_text, put_u8};

impl Put for Dep {
    ghost use Rattle.model.specs.Fit.{IsFitDep};
    ghost use Rattle.model.specs.Ranges.{DepInRange};
    ghost use Rattle.model.specs.Spelling.{dep_bytes};

    ghost is_fit = { IsFitDep };

    ghost in_range = { DepInRange };

    ghost spelling = { dep_bytes };

    #[tactic(auto, unfolding(model::specs::Spelling::dep_bytes))]
    fn put(&self, out: &mut Bytes) -> Result<(), NoMemory> {
        match self {
            Dep::FollowsJob(job) => put_numbered(out, 1, job.0),
            Dep::FollowsStream(stream) => put_numbered(out, 2, stream.0),
            Dep::Needs(resource, units) => put_shorts(out, 3, *resource, *units),
            Dep::Prompt(PromptRef::Global(prompt)) => put_short(out, 4, *prompt),
            Dep::Prompt(PromptRef::Own(text)) => put_worded(out, 5, text.as_str()),
            Dep::At(time) => put_long(out, 6, time.0),
            Dep::Until(time, mark) => {
                put_long(out, 7, time.0)?;
                put_u8(out, until_choice(*mark))
            }
            Dep::Outside(path) => put_worded(out, 8, path.as_str()),
            Dep::Deadline(time) => put_long(out, 9, time.0),
        }
    }
}

impl Put for DraftDep {
    ghost use Rattle.model.specs.Fit.{IsFitDraftDep};
    ghost use Rattle.model.specs.Ranges.{DraftDepInRange};
    ghost use Rattle.model.specs.Spelling.{draft_dep_bytes};

    ghost is_fit = { IsFitDraftDep };

    ghost in_range = { DraftDepInRange };

    ghost spelling = { draft_dep_bytes };

    #[tactic(auto, unfolding(model::specs::Spelling::draft_dep_bytes))]
    fn put(&self, out: &mut Bytes) -> Result<(), NoMemory> {
        match self {
            DraftDep::Follows(ws, name, job) => {
                put_short(out, 0, ws.0)?;
                put_text(out, name.as_str())?;
                put_job_name(out, job)
            }
            DraftDep::Plain(dep) => dep.put(out),
        }
    }
}

/// Adds a flag, and the name where there is one.
fn put_job_name(out: &mut Bytes, name: &Option<Text>) -> Result<(), NoMemory>
    requires { IfSome name.now IsFitText }
    ensures added { OnOk result (out.new ≡ out.old ++ option_bytes text_bytes name.now) }
    ensures range { OnOk result (IfSome name.now IsUtf8) }
{
    match name {
        None => put_u8(out, 0),
        Some(name) => put_worded(out, 1, name.as_str()),
    }
}
