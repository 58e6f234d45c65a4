//! A step of the world.
ghost use Rattle.std.specs.Prelude.{◌≡◌, ◌<◌, IfErr, IsTrue, OnErr, OnOk, nat_lt};
ghost use Rattle.std.specs.List.{list_all};
ghost use Rattle.model.specs.Types as types;
ghost use Rattle.model.specs.Network.{node_count};
ghost use Rattle.network_world.specs.Standing.{IsRefusalDue, Steps, ws_in_step};

use crate::laws::{counts_are_small, steps_keep_all};
use crate::refusals::StepRefused;
use crate::sites::take_at;
use crate::worlds::World;
use base_types::{Copied, Input, Local, WorldStep, Ws};

impl World {
    /// The node of w takes what happens there.
    fn take(&mut self, w: Ws, local: &Local) -> Result<(), StepRefused>
        requires { w < node_count self.old.net }
        ensures taken { OnOk result (Steps self.old (types.Take w local.now) self.new) }
        ensures refused { IfErr result (λ r. IsRefusalDue self.old (types.Take w local.now) r) }
        ensures err { OnErr result (self.new ≡ self.old) }
    {
        self.stands();
        steps_keep_all();
        counts_are_small();
        self.journal.check()?;
        let input = Input::Local(local.copy()?);
        let step = take_at(&mut self.journal, &mut self.stations, w, &input)?;
        let made = step.kept;
        self.journal.note_own(w, step.outs.as_slice(), made);
        Ok(())
    }

    /// Takes a step, whose workstations are in the network; those inside its input are tested by the node. Packets of
    /// an ordered pair are numbered from 1, and any of them may be delivered again at any time.
    ///
    /// The world after it stands for the world of the definitions after it, whichever it stood for. A refusal is that
    /// of the definitions, or `NoMemory` where memory runs out, and then the world is as before.
    pub fn step(&mut self, s: &WorldStep) -> Result<(), StepRefused>
        requires { IsTrue (list_all (λ w. nat_lt w (node_count self.old.net)) (ws_in_step s.now)) }
        ensures taken { OnOk result (Steps self.old s.now self.new) }
        ensures net { self.new.net ≡ self.old.net }
        ensures refused { IfErr result (λ r. IsRefusalDue self.old s.now r) }
        ensures err { OnErr result (self.new ≡ self.old) }
    {
        match s {
            WorldStep::Take(w, local) => self.take(*w, local),
            WorldStep::Deliver(a, b, k) => self.deliver(*a, *b, *k),
            WorldStep::Crash(w) => self.crash(*w),
            WorldStep::CrashTake(w, local, kept) => self.crash_take(*w, local, *kept),
            WorldStep::CrashDeliver(a, b, k, kept) => self.crash_deliver(*a, *b, *k, *kept),
        }
    }
}
