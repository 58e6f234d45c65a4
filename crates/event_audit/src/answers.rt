//! Whether an answer is the next to its issuer, of an order that stands there.
ghost use Rattle.std.specs.Prelude.{◌≡◌, ◌+◌, ◌==◌};
ghost use Rattle.std.specs.Bool.{Decides};
ghost use Rattle.model.specs.Types.{Declined, Events, Obeyed, Why};
ghost use Rattle.model.specs.Facts.{answered};
ghost use Rattle.model.specs.History.{list_of};
ghost use Rattle.model.specs.Sound.{AnswersItsOrder};

use base_types::{Cmd, Ws};
use owner_fold::Owners;
use value_equality::is_same_command;

/// Whether w's next answer to a is this one, and its order stands there.
pub(crate) fn is_next_answer(owners: &Owners, w: Ws, a: Ws, k: u32) -> bool
    ensures { (why : Why) → Decides result (AnswersItsOrder owners.now w (Declined a k why)) }
{
    is_next(owners, w, a, k) && owners.order(a, w, k).is_some()
}

/// Whether it is the number of w's next answer to a.
pub(crate) fn is_next(owners: &Owners, w: Ws, a: Ws, k: u32) -> bool
    ensures { result ≡ (k == 1 + answered a (list_of owners.now (Events w))) }
{
    k > 0 && owners.answered(w, a) == k - 1
}

/// Whether w's next answer to a is this one, and its order stands there and is this command.
pub(crate) fn repeats_its_order(owners: &Owners, w: Ws, a: Ws, k: u32, command: &Cmd) -> bool
    ensures { Decides result (AnswersItsOrder owners.now w (Obeyed a k command.now)) }
{
    if !is_next(owners, w, a, k) {
        return false;
    }
    match owners.order(a, w, k) {
        None => false,
        Some(order) => is_same_command(order, command),
    }
}
