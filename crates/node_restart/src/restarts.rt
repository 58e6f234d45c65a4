//! A node is made anew of a disk.
ghost use Rattle.std.specs.Prelude.{◌≡◌, ◌⊎◌, ◌+◌, ◌<◌, ◌≤◌, ℕ, false, length, map, IfErr, IfOk, IfSome, Some};
ghost use Rattle.model.specs.Fit.{AreFitEntries};
ghost use Rattle.model.specs.Network.{node_count};
ghost use Rattle.model.specs.Sessions.{restarted};
ghost use Rattle.model.specs.Spelling.{entry_bytes};
ghost use Rattle.outside.specs.Causes.{Rose};
ghost use Rattle.outside.specs.Kept.{Bodies, IsKept, size_of};
ghost use Rattle.outside.specs.Stops.{LeavesOnly};
ghost use Rattle.message_file.specs.Attaching.{LeftAttaching};
ghost use Rattle.message_file.specs.State.{kept_in, KeepsOf, KeptLeft, OwnFiles};
ghost use Rattle.agent_core.specs.Nodes.{session_in};
ghost use Rattle.node_restart.specs.Reading.{AreShortEntries};
ghost use Rattle.node_restart.specs.Restarting.{IsNoFile, IsRefused, Restarts};
ghost use Rattle.node_restart.specs.Stopping.{KeptSince, StayOwn};
ghost use Rattle.message_file.specs.declared.attaches.AttachFault.TheVariants.{Disk as AttachDisk, NotAMessageFile, OtherOwner};
ghost use Rattle.node_restart.specs.declared.faults.RestartFault.TheVariants.{Disk as OfDisk, NotThisFile};

use crate::agents::agent_of;
use crate::faults::RestartFault;
use agent_core::Agent;
use base_types::Ws;
use message_file::{AttachFault, MessageFile};
use network_tree::Network;
use outside::Disk;
use std::alloc::Global;

/// A node, and the message file that keeps its entries.
#[derive(Drop)]
pub struct Restarted<D: Disk> {
    pub agent: Agent,
    pub file: MessageFile<D>,
}

/// A disk of which no node was made, and why.
#[derive(Drop)]
pub struct NotRestarted<D> {
    pub fault: RestartFault,
    pub disk: D,
}

/// What a disk that was not attached means for the node.
fn not_attached(fault: AttachFault) -> RestartFault
    ensures place { (place : ℕ) → result ≡ NotThisFile place
        → (fault ≡ NotAMessageFile place) ⊎ (fault ≡ OtherOwner place) }
    ensures disk { result ≡ OfDisk → fault ≡ AttachDisk }
    ensures is_disk { fault ≡ AttachDisk → result ≡ OfDisk }
{
    match fault {
        AttachFault::NotAMessageFile(place) => RestartFault::NotThisFile(place),
        AttachFault::OtherOwner(place) => RestartFault::NotThisFile(place),
        AttachFault::Disk => RestartFault::Disk,
        AttachFault::NoMemory => RestartFault::NoMemory,
    }
}

/// Makes the node of a workstation of the network anew, from a disk that may have stopped at any moment before.
///
/// The node holds exactly the entries that the disk's file keeps, with nothing live, linked or acknowledged, and the file
/// is ready to keep more. An empty disk gets a file that keeps nothing. A disk that is refused comes back, and its file
/// keeps what it kept, but where the disk failed.
pub fn restart_node<D: Disk>(
    alloc: Global,
    disk: D,
    net: Network,
    me: Ws,
) -> Result<Restarted<D>, NotRestarted<D>>
    requires inside { me < node_count net }
    // The node.
    ensures net { IfOk result (λ r. r.agent.net ≡ net) }
    ensures me { IfOk result (λ r. r.agent.me ≡ me) }
    ensures session { IfOk result (λ r. session_in r.agent ≡ restarted) }
    ensures fit { IfOk result (λ r. AreFitEntries r.agent.kept) }
    ensures short { IfOk result (λ r. AreShortEntries r.agent.kept) }
    // Its entries are those that the file keeps, in order.
    ensures restarts { IfOk result (λ r. IfSome (D.seen disk) (Restarts net me r.agent.kept)) }
    ensures kept { IfOk result (λ r. KeepsOf me (D.seen disk) (kept_in (D.seen r.file.disk) r.file.count)) }
    ensures written { IfOk result (λ r. IfSome (kept_in (D.seen r.file.disk) r.file.count)
        (λ bodies. bodies ≡ map entry_bytes r.agent.kept)) }
    ensures count { IfOk result (λ r. r.file.count ≡ length r.agent.kept) }
    // The file goes on: a stop leaves what it keeps.
    ensures unspent { IfOk result (λ r. r.file.spent ≡ false) }
    ensures rest { IfOk result (λ r. (left : Bodies) → KeptLeft (D.may_leave r.file.disk) left
        → IsKept (kept_in (D.seen r.file.disk) r.file.count) left) }
    ensures size { IfOk result (λ r. IfSome (kept_in (D.seen r.file.disk) r.file.count)
        (λ bodies. r.file.gate + 1 ≡ size_of bodies)) }
    // Why there is none.
    ensures refused { IfErr result (λ e. (place : ℕ) → e.fault ≡ NotThisFile place
        → IfSome (D.seen disk) (IsRefused net me place)) }
    ensures untouched { IfErr result (λ e. (place : ℕ) → e.fault ≡ NotThisFile place
        → IfSome (D.seen disk) (λ file. IsNoFile me place file → D.seen e.disk ≡ Some file)) }
    ensures same_kept { IfErr result (λ e. (e.fault ≡ OfDisk → ⊥) → (D.seen e.disk ≡ D.seen disk)
        ⊎ ((number : ℕ) × KeepsOf me (D.seen disk) (kept_in (D.seen e.disk) number))) }
    ensures cause { IfErr result (λ e. e.fault ≡ OfDisk → Rose (D.faults disk) (D.faults e.disk)) }
    ensures later { IfOk result (λ r. D.faults disk ≤ D.faults r.file.disk) }
    ensures later_err { IfErr result (λ e. D.faults disk ≤ D.faults e.disk) }

    // A stop at any moment leaves what one before could leave, or a file that keeps the same bodies; of an empty file one
    // that keeps nothing.
    ensures any_moment { IfOk result (λ r. LeavesOnly D.moment (KeptSince D.left_since) disk r.file.disk
        (KeptLeft (LeftAttaching me (D.seen disk) (D.may_leave disk)))) }
    ensures any_moment_err { IfErr result (λ e. LeavesOnly D.moment (KeptSince D.left_since) disk e.disk
        (KeptLeft (LeftAttaching me (D.seen disk) (D.may_leave disk)))) }

    // Where all that stops left were files of the workstation, it stays so. What is read and what a stop leaves from
    // now on are such files in any case.
    ensures own { IfOk result (λ r. StayOwn me D.moment D.seen D.left_since disk r.file.disk) }
    ensures own_err { IfErr result (λ e. StayOwn me D.moment D.seen D.left_since disk e.disk) }
    ensures owner { IfOk result (λ r. r.file.owner ≡ me) }
    ensures opens { IfOk result (λ r. OwnFiles me (D.seen r.file.disk)
        (D.left_since r.file.disk (D.moment r.file.disk))) }
{
    match MessageFile::attach(alloc, disk, me) {
        Ok(mut file) => match agent_of(alloc, &mut file, net, me) {
            Ok(agent) => Ok(Restarted { agent, file }),
            Err(fault) => Err(NotRestarted {
                fault,
                disk: file.detach(),
            }),
        },
        Err(refused) => Err(NotRestarted {
            fault: not_attached(refused.fault),
            disk: refused.disk,
        }),
    }
}
