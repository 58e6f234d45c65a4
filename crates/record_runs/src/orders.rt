//! What a workstation is told to do: an operator's line, and its own advice.
ghost use Rattle.std.specs.Prelude.{◌≡◌, ◌∷◌, ◌<◌, [], IfErr, IfOk};
ghost use Rattle.model.specs.Types as types;
ghost use Rattle.model.specs.Network.{node_count};
ghost use Rattle.model.specs.World as model;
ghost use Rattle.model.specs.World.{view_at};
ghost use Rattle.network_world.specs.Standing.{StandsFor};
ghost use Rattle.recovery_watch.specs.Advice as advices;
ghost use Rattle.record_runs.specs.Lines as spec;
ghost use Rattle.record_runs.specs.declared.acts.Act.TheVariants.{Own as Owned};
ghost use Rattle.record_runs.specs.Taken.{IsMade, IsNotMade, halts_order, ws_in_act};

use crate::acts::Act;
use crate::stops::{Halt, Stop};
use base_types::{Cmd, Local, Ws};
use conman_orders::{ResolveFault, resolve};
use conman_syntax::Line;
use network_world::World;
use recovery_watch::advice;
use std::alloc::Global;

/// What halts where a line gives no command.
fn order_halt(fault: ResolveFault) -> Halt
    ensures { result ≡ halts_order fault }
{
    match fault {
        ResolveFault::UnknownName(_) => Halt::At(Stop::UnknownName),
        ResolveFault::NotACommand => Halt::At(Stop::UnknownName),
        ResolveFault::NoMemory => Halt::NoMemory,
    }
}

/// A command is typed at w for a workstation.
fn ordered(w: Ws, order: (Ws, Cmd)) -> Act
    ensures { result ≡ Owned w (types.Typed order.0 order.1) }
{
    Act::Own(w, Local::Typed(order.0, order.1))
}

/// A line is typed at w. Its names are those of the node's own view.
pub(crate) fn typed(alloc: Global, world: &World, w: Ws, line: &Line) -> Result<Act, Halt>
    requires { w < node_count world.now.net }
    ensures here { IfOk result (λ a. ws_in_act a ≡ w ∷ []) }
    ensures made { IfOk result (IsMade world.now
        (λ (x : model.World). spec.typed w (spec.order_at world.now.net x w line.now))) }
    ensures not_made { IfErr result (IsNotMade world.now
        (λ (x : model.World). spec.typed w (spec.order_at world.now.net x w line.now))) }
{
    let node = world.node(w);
    match resolve(alloc, node.net(), node.owners(), w, line) {
        Ok(order) => Ok(ordered(w, order)),
        Err(fault) => Err(order_halt(fault)),
    }
}

/// What w advises itself.
pub(crate) fn advised(world: &World, w: Ws) -> Option<Cmd>
    requires { w < node_count world.now.net }
    ensures { (x : model.World) → StandsFor world.now x → result ≡ advices.advice (view_at x w) w }
{
    let node = world.node(w);
    advice(node.net(), node.owners(), w)
}
