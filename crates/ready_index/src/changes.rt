//! What an entry asks of an index.
ghost use Rattle.std.specs.Prelude.{◌≡◌};
ghost use Rattle.ready_index.specs.Changes.{change_by, change_by_command};

use crate::targets::Target;
use base_types::{Body, Cmd, OnUntil};

/// What an entry asks of an index.
#[derive(Clone, Copy)]
pub(crate) enum Change {
    /// It may change any job: the index is made anew.
    Everything,
    /// A job was launched, which may not be due any more.
    Launch(u32),
    /// Who watches this may go on.
    At(Target),
    /// It changes no job.
    Nothing,
}

/// What a command that was obeyed asks of an index.
fn change_of_command(cmd: &Cmd) -> Change
    ensures { result ≡ change_by_command cmd.now }
{
    match cmd {
        Cmd::AddDep(_, _) | Cmd::DelDep(_, _) | Cmd::Release(_) => Change::Everything,
        Cmd::AltPri(_, _) | Cmd::Cancel(_) | Cmd::Confirm(_) => Change::Everything,
        Cmd::Rerun(_) | Cmd::Submit(_) => Change::Everything,
        Cmd::Kill(_) | Cmd::Fence(_) | Cmd::Limit(_) => Change::Nothing,
        Cmd::StreamLimit(_, _) | Cmd::Total(_, _) => Change::Nothing,
        Cmd::ReplyGlobal(_, _) | Cmd::ReplyOwn(_, _, _) => Change::Nothing,
        Cmd::Start | Cmd::Stop | Cmd::SwitchMgr(_) => Change::Nothing,
    }
}

/// What an entry with this body asks of an index.
pub(crate) fn change_of(body: &Body) -> Change
    ensures { result ≡ change_by body.now }
{
    match body {
        Body::NewPlan(_, _, _, _) | Body::Added(_, _, _) => Change::Everything,
        Body::Obeyed(_, _, cmd) => change_of_command(cmd),
        Body::UntilPassed(_, _, OnUntil::Canc) => Change::Everything,
        Body::UntilPassed(_, _, _) => Change::Nothing,
        Body::Released(s, _) => Change::At(Target::ReleaseOf(s.0)),
        Body::StreamEnded(s, _) => Change::At(Target::EndOfStream(s.0)),
        Body::Failed(j, _) | Body::Ended(j, _, _, _) | Body::Lost(j, _) => {
            Change::At(Target::EndOfJob(j.0))
        }
        Body::Launched(j, _, _) => Change::Launch(j.0),
        Body::Clock(_) | Body::Started(_, _) | Body::Fulfilled(_, _) => Change::Nothing,
        Body::Declined(_, _, _) | Body::Order(_) | Body::Late(_, _) => Change::Nothing,
    }
}
