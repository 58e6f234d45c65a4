//! The replies to the prompts of the network: each counts until the next plan.
ghost use Rattle.std.specs.Prelude.{◌≡◌, ◌+◌, ◌<◌, ◌^◌, ◌++◌, [], ◌∷◌, List, IfSome, IsSome, length};
ghost use Rattle.model.specs.Types.{Entry as Taken};
ghost use Rattle.model.specs.History.{list_of};
ghost use Rattle.owner_rows.specs.Replies.{IsPlanRow, IsReplyRow, reply_while, reply_with};
ghost use Rattle.owner_rows.specs.Subjects.{key_in, plan_in, prompt_in};
ghost use Rattle.owner_rows.specs.Tables.{AreRows, has_row};

use crate::jobs::counted;
use crate::subjects::{plan_key, prompt_key};
use crate::tables::Table;
use base_types::{Body, Cmd, Entry};

/// The reply that the body has, where there were so many plans.
fn reply_after(plans: u32, body: &Body) -> Option<(u32, bool)>
    ensures { result ≡ reply_with plans body.now }
{
    match body {
        Body::Obeyed(_, _, Cmd::ReplyGlobal(_, yes)) => Some((plans, *yes)),
        _ => None,
    }
}

/// The reply that counts where there are so many plans.
pub(crate) fn reply_while(row: Option<(u32, bool)>, plans: u32) -> Option<bool>
    ensures { result ≡ reply_while plans row }
{
    match row {
        None => None,
        Some((before, yes)) => { if before == plans { Some(yes) } else { None } }
    }
}

/// The counts of plans after one more entry, for whose row the memory is there.
pub(crate) fn tell_plan(plans: &mut Table<u32>, e: &Entry)
    requires { IfSome (key_in plan_in e.now) (λ k. IsSome (has_row plans.old k)) }
    ensures { (kept : List Taken) → length (list_of kept e.now.feed) + 1 < 2 ^ 32 → AreRows IsPlanRow kept plans.old
        → AreRows IsPlanRow (kept ++ e.now ∷ []) plans.new }
{
    if let Some((w, n)) = plan_key(e) {
        let count = plans.row(w, n);
        plans.put(w, n, counted(count, true));
    }
}

/// The replies after one more entry, for whose row the memory is there, by the counts of plans before it.
pub(crate) fn tell_reply(replies: &mut Table<Option<(u32, bool)>>, plans: &Table<u32>, e: &Entry)
    requires { IfSome (key_in prompt_in e.now) (λ k. IsSome (has_row replies.old k)) }
    ensures { (kept : List Taken) → length (list_of kept e.now.feed) + 1 < 2 ^ 32 → AreRows IsPlanRow kept plans.now
        → AreRows IsReplyRow kept replies.old → AreRows IsReplyRow (kept ++ e.now ∷ []) replies.new }
{
    if let Some((w, p)) = prompt_key(e) {
        let count = plans.row(w, 0);
        replies.put(w, p, reply_after(count, &e.body));
    }
}
