//! Which streams a new plan carries.
ghost use Rattle.std.specs.Prelude.{◌≡◌};
ghost use Rattle.model.specs.NewPlan as spec;
ghost use Rattle.counted_decisions.specs.Sights.{IsSight, seen_in};

use crate::sights::{Sight, is_cancelled, is_ended, stream};
use base_types::{Carry, StreamDoc, StreamNo};
use network_tree::Network;

/// Whether the option takes an unfinished stream: a marked one, none, or any.
fn takes(option: Carry, doc: &StreamDoc) -> bool
    ensures { result ≡ spec.takes option doc.now }
{
    match option {
        Carry::Yes => doc.carry,
        Carry::No => false,
        Carry::All => true,
    }
}

/// Whether the network's option takes a stream that is neither cancelled nor ended by what is counted. False outside the
/// catalogue.
#[tactic(auto, unfolding(model::specs::NewPlan::is_carried))]
pub fn is_carried(net: &Network, sight: &Sight<'_>, s: StreamNo) -> bool
    requires { IsSight sight.now }
    ensures { result ≡ spec.is_carried net.now (seen_in sight.now) s }
{
    match stream(sight, s) {
        None => false,
        Some(doc) => {
            if !takes(net.net().carry, doc) {
                return false;
            }
            if is_cancelled(sight, doc.ws, s) {
                return false;
            }
            !is_ended(sight, doc.ws, s)
        }
    }
}
