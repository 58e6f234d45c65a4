//! The answer to an order.
ghost use Rattle.std.specs.Prelude.{◌≡◌, ◌+◌, IfOk, None, option_map};
ghost use Rattle.model.specs.Types as types;
ghost use Rattle.model.specs.Types.{Events};
ghost use Rattle.model.specs.History.{view_of};
ghost use Rattle.model.specs.Facts.{answered};
ghost use Rattle.model.specs.NewPlan as plans;
ghost use Rattle.model.specs.Turn as spec;
ghost use Rattle.carry_forward.specs.Faults.{submit_fault};
ghost use Rattle.batchman_core.specs.Told.{HasDocument};

use crate::bodies::kept;
use base_types::{Body, Cmd, Copied, NoMemory, StreamDraft, Ws};
use carry_forward::{CarryFault, numbered};
use conman_orders::{Verdict, judge};
use decision_rules::next_order;
use network_tree::Network;
use owner_fold::Owners;
use std::alloc::Global;

/// The answer of `me` to the first order of an issuer that is not answered. None where there is no such order.
pub(crate) fn answer(
    alloc: Global,
    net: &Network,
    o: &Owners,
    me: Ws,
    a: Ws,
) -> Result<Option<Body>, NoMemory>
    ensures { let V = view_of o.now in
        IfOk result (λ b. b ≡ option_map (spec.answer net.now V me a) (spec.next_order V me a)) }
{
    match next_order(o, me, a) {
        None => Ok(None),
        Some((place, cmd)) => kept(answer_to(alloc, net, o, me, a, place, cmd)),
    }
}

/// The answer to the order of an issuer at this place.
fn answer_to(
    alloc: Global,
    net: &Network,
    o: &Owners,
    me: Ws,
    a: Ws,
    place: u32,
    cmd: &Cmd,
) -> Result<Body, NoMemory>
    requires { place ≡ 1 + answered a (view_of o.now (Events me)) }
    ensures { IfOk result (λ b. b ≡ spec.answer net.now (view_of o.now) me a cmd.now) }
{
    match judge(net, o, me, cmd) {
        Verdict::Decline(why) => Ok(Body::Declined(a, place, why)),
        Verdict::Obey => obeyed(alloc, o, a, place, cmd),
    }
}

/// The entry that an order becomes where it is obeyed.
fn obeyed(alloc: Global, o: &Owners, a: Ws, place: u32, cmd: &Cmd) -> Result<Body, NoMemory>
    requires { HasDocument (view_of o.now) cmd.now }
    ensures { IfOk result (λ b. b ≡ spec.obeyed_as (view_of o.now) a place cmd.now) }
{
    match cmd {
        Cmd::Submit(draft) => added(alloc, o, a, place, draft),
        _ => Ok(Body::Obeyed(a, place, cmd.copy()?)),
    }
}

/// The stream that a submit adds. There are numbers and room for it, so memory alone may be wanting.
fn added(
    alloc: Global,
    o: &Owners,
    a: Ws,
    place: u32,
    draft: &StreamDraft,
) -> Result<Body, NoMemory>
    requires { submit_fault (view_of o.now) draft.now ≡ None }
    ensures { IfOk result (λ b. b ≡ types.Added a place (plans.numbered (view_of o.now) draft.now)) }
{
    match numbered(alloc, o, draft) {
        Ok(doc) => Ok(Body::Added(a, place, doc)),
        Err(CarryFault::NoMemory) => Err(NoMemory),
        Err(CarryFault::RunsSpent) => unreachable!(),
        Err(CarryFault::NumbersSpent) => unreachable!(),
        Err(CarryFault::PlanFull(_)) => unreachable!(),
    }
}
