//! Nodes that stop and begin again.
ghost use Rattle.std.specs.Prelude.{◌≡◌, ◌<◌, IfErr, OnErr, OnOk};
ghost use Rattle.model.specs.Types as types;
ghost use Rattle.model.specs.Network.{node_count};
ghost use Rattle.network_world.specs.Standing.{IsRefusalDue, Steps};

use crate::laws::{counts_are_small, steps_keep_all};
use crate::refusals::StepRefused;
use crate::sites::{crash_at, mark_at, stop_at};
use crate::worlds::World;
use base_types::{Copied, Input, Local, Ws};

impl World {
    /// The node of w stops and begins again.
    pub(crate) fn crash(&mut self, w: Ws) -> Result<(), StepRefused>
        requires { w < node_count self.old.net }
        ensures taken { OnOk result (Steps self.old (types.Crash w) self.new) }
        ensures refused { IfErr result (λ r. IsRefusalDue self.old (types.Crash w) r) }
        ensures err { OnErr result (self.new ≡ self.old) }
    {
        self.stands();
        steps_keep_all();
        counts_are_small();
        self.journal.check()?;
        crash_at(&mut self.journal, &mut self.stations, w)?;
        self.journal.note_own(w, &[], None);
        Ok(())
    }

    /// The node of w stops in the step on what happens there, and begins again. The flag says whether its entry is
    /// kept.
    pub(crate) fn crash_take(&mut self, w: Ws, local: &Local, kept: bool) -> Result<(), StepRefused>
        requires { w < node_count self.old.net }
        ensures taken { OnOk result (Steps self.old (types.CrashTake w local.now kept) self.new) }
        ensures refused { IfErr result (λ r. IsRefusalDue self.old (types.CrashTake w local.now kept) r) }
        ensures err { OnErr result (self.new ≡ self.old) }
    {
        self.stands();
        steps_keep_all();
        counts_are_small();
        self.journal.check()?;
        let input = Input::Local(local.copy()?);
        let made = stop_at(
            self.alloc,
            &mut self.journal,
            &mut self.stations,
            w,
            &input,
            kept,
        )?;
        self.journal.note_own(w, &[], made);
        Ok(())
    }

    /// The node of b stops in the delivery of packet k from a, and begins again. The flag says whether its entry is
    /// kept. The packet counts as delivered.
    pub(crate) fn crash_deliver(
        &mut self,
        a: Ws,
        b: Ws,
        k: u32,
        kept: bool,
    ) -> Result<(), StepRefused>
        requires from { a < node_count self.old.net }
        requires to { b < node_count self.old.net }
        ensures taken { OnOk result (Steps self.old (types.CrashDeliver a b k kept) self.new) }
        ensures refused { IfErr result (λ r. IsRefusalDue self.old (types.CrashDeliver a b k kept) r) }
        ensures err { OnErr result (self.new ≡ self.old) }
    {
        self.stands();
        steps_keep_all();
        counts_are_small();
        let input = self.brought(a, b, k)?;
        let made = stop_at(
            self.alloc,
            &mut self.journal,
            &mut self.stations,
            b,
            &input,
            kept,
        )?;
        mark_at(&mut self.stations, a, b, k);
        self.journal.note_mailed(b, &[], &made);
        Ok(())
    }
}
