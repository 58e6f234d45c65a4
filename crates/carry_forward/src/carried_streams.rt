//! The streams that a new plan carries.
ghost use Rattle.std.specs.Prelude.{◌≡◌, IfOk};
ghost use Rattle.model.specs.History.{view_of};
ghost use Rattle.model.specs.NewPlan.{carried_members};

use base_types::{Net, NoMemory, StreamNos};
use decision_rules::is_carried;
use owner_fold::Owners;

/// The members that the next plan carries, in order.
#[tactic(auto, unfolding(model::specs::NewPlan::carried_members))]
pub(crate) fn carried_streams(net: &Net, o: &Owners) -> Result<StreamNos, NoMemory>
    ensures { IfOk result (λ carried. carried ≡ carried_members net.now (view_of o.now)) }
{
    let members = o.members();
    let mut carried = members.empty();
    for s in members.as_slice() {
        if is_carried(net, o, *s) {
            carried.push(*s)?;
        }
    }
    Ok(carried)
}
