//! An entry is kept.
ghost use Rattle.std.specs.Prelude.{◌≡◌, ◌≤◌, ℕ, List, Bool, true, false, length, IfOk, OnOk, Some, None};
ghost use Rattle.model.specs.Fit.{IsFit};
ghost use Rattle.model.specs.Spelling.{entry_bytes};
ghost use Rattle.outside.specs.Records.{longest_body};
ghost use Rattle.node_inputs.specs.Keeping.{IsReady, KeptBy, Lasts};
ghost use Rattle.node_inputs.specs.Traces.{Trace};

use crate::ends::NodeEnd;
use base_types::{Entry, LimitName, NoMemory};
use entry_codec::write_entry;
use outside::{FrameFault, Framed, KeepFault, Keeper};
use std::alloc::Global;

/// Keeps an entry, before anything of its step goes out. The keeper has not failed, and the entry is one that a step
/// makes or that came by mail: it is fit, and has at most 4,194,304 bytes.
///
/// It is kept, or it is not and the run ends: for want of memory before the keeper was asked, for want of room in its
/// file, exactly where that would pass 2,147,483,648 bytes, or for its disk, whose count of faults then rose. A stop at
/// any moment leaves what was kept before, or that and the entry.
pub fn keep<K: Keeper>(alloc: Global, keeper: &mut K, entry: &Entry) -> Result<(), NodeEnd>
    requires ready { IsReady K.kept K.spent K.may_leave keeper.old }
    requires fit { IsFit entry.now }
    requires short { length (entry_bytes entry.now) ≤ longest_body }
    ensures kept { (trace : Trace) × KeptBy entry.now trace result
        × Lasts K.kept K.size K.faults K.moment K.may_leave K.left_since K.opens_since trace keeper.old keeper.new }
    ensures ready { OnOk result (IsReady K.kept K.spent K.may_leave keeper.new) }
{
    let bytes = match write_entry(alloc, entry) {
        Ok(bytes) => bytes,
        Err(NoMemory) => return Err(NodeEnd::NoMemory),
    };
    let framed = match Framed::of(alloc, bytes.as_slice()) {
        Ok(framed) => framed,
        Err(FrameFault::NoMemory) => return Err(NodeEnd::NoMemory),
        Err(FrameFault::TooLong) => unreachable!(),
    };
    match keeper.append(&framed) {
        Ok(()) => Ok(()),
        Err(KeepFault::Full) => Err(NodeEnd::Limit(LimitName::File)),
        Err(KeepFault::Disk) => Err(NodeEnd::DiskFault),
        Err(KeepFault::NotThere | KeepFault::NoMemory) => unreachable!(),
    }
}
