//! Whether an added stream is the next answer to its issuer, and the document of the draft that was submitted.
ghost use Rattle.std.specs.Bool.{Decides};
ghost use Rattle.model.specs.Types.{Added};
ghost use Rattle.model.specs.Sound.{AnswersItsOrder, IsSubmit};

use crate::answers::is_next;
use crate::draft_documents::is_document_of;
use base_types::{Cmd, StreamDoc, Ws};
use owner_fold::Owners;

/// Whether w's next answer to a is this one, and its order stands there, submits a draft and has this document.
pub(crate) fn is_right_addition(owners: &Owners, w: Ws, a: Ws, k: u32, doc: &StreamDoc) -> bool
    ensures { Decides result (AnswersItsOrder owners.now w (Added a k doc.now)) }
{
    if !is_next(owners, w, a, k) {
        return false;
    }
    match owners.order(a, w, k) {
        None => false,
        Some(order) => is_submit_of(owners, order, doc),
    }
}

/// Whether a command submits a draft that has this document.
fn is_submit_of(owners: &Owners, command: &Cmd, doc: &StreamDoc) -> bool
    ensures { Decides result (IsSubmit owners.now doc.now command.now) }
{
    match command {
        Cmd::Submit(draft) => is_document_of(owners, draft, doc),
        _ => false,
    }
}
