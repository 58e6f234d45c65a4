//! A node is made of what a keeper keeps.
ghost use Rattle.std.specs.Prelude.{◌≡◌, ◌<◌, ◌≤◌, ℕ, false, length, take, IfOk, IfSome, OnOk};
ghost use Rattle.std.specs.Result.{IsErrOf};
ghost use Rattle.model.specs.Fit.{AreFitEntries};
ghost use Rattle.model.specs.Network.{node_count};
ghost use Rattle.model.specs.Sessions.{restarted};
ghost use Rattle.outside.specs.Causes.{Rose};
ghost use Rattle.outside.specs.Kept.{Bodies, IsKept, size_of};
ghost use Rattle.message_file.specs.Files.{HasRoom, place_behind};
ghost use Rattle.agent_core.specs.Nodes.{session_in};
ghost use Rattle.node_restart.specs.Reading.{AreShortEntries, OnlyReads};
ghost use Rattle.node_restart.specs.Restarting.{AreHeld, IsWrongAt};
ghost use Rattle.node_restart.specs.declared.faults.RestartFault.TheVariants.{Disk as OfDisk, NotThisFile};

use crate::entries::read_entries;
use crate::faults::{ReadFault, RestartFault};
use crate::reads::gate_of;
use agent_core::{Agent, RestoreFault};
use base_types::Ws;
use network_tree::Network;
use outside::Keeper;
use std::alloc::Global;

/// The fault of a file whose first wrong body has this number: the place of its gate.
fn wrong_body<K: Keeper>(keeper: &mut K, number: u32) -> RestartFault
    requires unspent { K.spent keeper.old ≡ false }
    requires there { number ≤ K.number keeper.old }
    requires room { IfSome (K.kept keeper.old) HasRoom }
    ensures gate { (place : ℕ) → result ≡ NotThisFile place
        → IfSome (K.kept keeper.old) (λ bodies. place ≡ place_behind (take number bodies)) }
    ensures reads { OnlyReads K.kept K.number K.may_leave K.moment K.left_since K.opens_since
        keeper.old keeper.new }
    ensures cause { result ≡ OfDisk → Rose (K.faults keeper.old) (K.faults keeper.new) }
    ensures later { K.faults keeper.old ≤ K.faults keeper.new }
{
    match gate_of(keeper, number) {
        Ok(gate) => RestartFault::NotThisFile(gate),
        Err(ReadFault::Disk) => RestartFault::Disk,
        Err(ReadFault::NoMemory) => RestartFault::NoMemory,
    }
}

/// The node of a workstation that holds the entries which a keeper keeps.
pub(crate) fn agent_of<K: Keeper>(
    alloc: Global,
    keeper: &mut K,
    net: Network,
    me: Ws,
) -> Result<Agent, RestartFault>
    requires inside { me < node_count net }
    requires unspent { K.spent keeper.old ≡ false }
    requires room { IfSome (K.kept keeper.old) HasRoom }
    ensures net { IfOk result (λ a. a.net ≡ net) }
    ensures me { IfOk result (λ a. a.me ≡ me) }
    ensures session { IfOk result (λ a. session_in a ≡ restarted) }
    ensures fit { IfOk result (λ a. AreFitEntries a.kept) }
    ensures short { IfOk result (λ a. AreShortEntries a.kept) }
    ensures held { IfOk result (λ a. IfSome (K.kept keeper.old) (AreHeld net a.kept)) }
    ensures count { IfOk result (λ a. K.number keeper.new ≡ length a.kept) }
    ensures wrong { (place : ℕ) → IsErrOf result (NotThisFile place)
        → IfSome (K.kept keeper.old) (IsWrongAt net place) }
    ensures unspent { OnOk result (K.spent keeper.new ≡ false) }
    ensures rest { OnOk result ((left : Bodies) → K.may_leave keeper.new left → IsKept (K.kept keeper.new) left) }
    ensures size { OnOk result (IfSome (K.kept keeper.new) (λ bodies. K.size keeper.new ≡ size_of bodies)) }
    ensures reads { OnlyReads K.kept K.number K.may_leave K.moment K.left_since K.opens_since
        keeper.old keeper.new }
    ensures cause { IsErrOf result OfDisk → Rose (K.faults keeper.old) (K.faults keeper.new) }
    ensures later { K.faults keeper.old ≤ K.faults keeper.new }
{
    let entries = match read_entries(alloc, keeper) {
        Ok(entries) => entries,
        Err(ReadFault::Disk) => return Err(RestartFault::Disk),
        Err(ReadFault::NoMemory) => return Err(RestartFault::NoMemory),
    };
    let count = keeper.count();
    let read = entries.len() as u32;
    match Agent::restore(alloc, net, me, &entries) {
        Ok(agent) => {
            if read < count {
                return Err(wrong_body(keeper, read));
            }
            Ok(agent)
        }
        Err(RestoreFault::NotNext(number)) => Err(wrong_body(keeper, number)),
        Err(RestoreFault::NoMemory) => Err(RestartFault::NoMemory),
        Err(RestoreFault::NotInNetwork) => unreachable!(),
    }
}
