//! All nodes of the network, and the packets between them.
ghost use Rattle.std.specs.Prelude.{◌≡◌, ◌<◌, nat_lt};
ghost use Rattle.std.specs.List.{list_all};
ghost use Rattle.network_world.specs.Standing.{ws_in_step};

use crate::asked::Asked;
use crate::follows::best_launches;
use crate::locals::local_of;
use crate::nights::Night;
use crate::outs::Out;
use base_types::{Bytes, Copied, Entry, JobNo, Local, WorldStep, Ws};
use network_world::{StepRefused, World};
use report_text::print_report;

/// Whether the workstations of a step are below a count.
fn is_inside(count: u16, step: &WorldStep) -> bool
    ensures { result ≡ list_all (λ w. nat_lt w count) (ws_in_step step.now) }
{
    match step {
        WorldStep::Take(w, _) => w.0 < count,
        WorldStep::Deliver(a, b, _) => a.0 < count && b.0 < count,
        WorldStep::Crash(w) => w.0 < count,
        WorldStep::CrashTake(w, _, _) => w.0 < count,
        WorldStep::CrashDeliver(a, b, _, _) => a.0 < count && b.0 < count,
    }
}

/// What a world answers to a step. None where it names a workstation outside.
fn answer(world: &mut World, step: &WorldStep) -> Option<Result<(), StepRefused>> {
    let count = world.net().count();
    if !is_inside(count, step) {
        return None;
    }
    Some(world.step(step))
}

/// Takes a step, and writes where it is refused.
fn take(world: &mut World, out: &mut Out, step: &WorldStep) {
    match answer(world, step) {
        Some(Ok(())) => {}
        Some(Err(refused)) => out.debug("refused ", &refused),
        None => out.word("outside"),
    }
}

/// How many packets were sent, and the greatest number delivered.
fn sent_and_reached(world: &World, a: Ws, b: Ws) -> (u32, u32) {
    let count = world.net().count();
    if a.0 >= count || b.0 >= count {
        return (0, 0);
    }
    (world.packets(a, b), world.reached(a, b))
}

fn flow(world: &mut World, out: &mut Out, a: Ws, b: Ws) {
    let (sent, reached) = sent_and_reached(world, a, b);
    for k in reached..sent {
        let step = WorldStep::Deliver(a, b, k + 1);
        take(world, out, &step);
    }
}

/// The lowest job beyond this one with a launch that is live at a node.
fn next_live(world: &World, w: Ws, beyond: u32) -> Option<u32> {
    if w.0 >= world.net().count() {
        return None;
    }
    let mut lowest: Option<u32> = None;
    for launch in world.node(w).live().as_slice() {
        let number = launch.job.0;
        if number > beyond && lowest.is_none_or(|low| number < low) {
            lowest = Some(number);
        }
    }
    lowest
}

fn live_count(world: &World, w: Ws) -> usize {
    if w.0 >= world.net().count() {
        return 0;
    }
    world.node(w).live().len()
}

/// Each launch that is live at a node ends well, the lowest job first.
fn reap(world: &mut World, out: &mut Out, w: Ws) {
    let mut beyond = 0;
    for _ in 0..live_count(world, w) {
        if let Some(number) = next_live(world, w, beyond) {
            let step = WorldStep::Take(w, Local::Ended(JobNo(number), 0));
            take(world, out, &step);
            beyond = number;
        }
    }
}

/// The step that is asked for at one workstation.
fn step_at(out: &mut Out, asked: &Asked) -> Option<WorldStep> {
    let w = asked.ws(0);
    match local_of(out, asked.text) {
        Some(local) => {
            if asked.word == "at" {
                Some(WorldStep::Take(w, local))
            } else {
                Some(WorldStep::CrashTake(w, local, asked.word == "stop-kept"))
            }
        }
        None => None,
    }
}

/// The step that is asked for.
fn step_of(out: &mut Out, asked: &Asked) -> Option<WorldStep> {
    let (a, b, k) = (asked.ws(0), asked.ws(1), asked.count(2));
    if asked.is("deliver", 3) {
        Some(WorldStep::Deliver(a, b, k))
    } else if asked.is("stop-deliver", 3) {
        Some(WorldStep::CrashDeliver(a, b, k, true))
    } else if asked.is_with_text("at", 1)
        || asked.is_with_text("stop-kept", 1)
        || asked.is_with_text("stop-lost", 1)
    {
        step_at(out, asked)
    } else {
        None
    }
}

fn report(out: &mut Out, world: &World) -> Option<Bytes> {
    match out.kept(world.parts()) {
        Some(parts) => {
            let report = print_report(out.alloc, world.net().net(), &parts);
            out.kept(report)
        }
        None => None,
    }
}

fn is_reported(out: &mut Out, world: &World, remembered: &[u8]) -> bool {
    match report(out, world) {
        Some(now) => now.as_slice() == remembered,
        None => false,
    }
}

/// What a node holds, in the order in which it took it.
fn held(world: &World, node: Ws) -> &[Entry] {
    if node.0 >= world.net().count() {
        return &[];
    }
    world.node(node).owners().kept().entries()
}

/// Writes whether all ways find the same best job of w after each of these entries.
fn put_followed(world: &World, out: &mut Out, w: Ws, entries: &[Entry]) {
    match best_launches(out, world.net(), w, entries) {
        Some(_) => out.word("they agree"),
        None => out.word("they differ"),
    }
}

/// Writes how many jobs a node launched of which each was the best by all that the node held then.
fn put_launches(world: &World, out: &mut Out, w: Ws) {
    match best_launches(out, world.net(), w, held(world, w)) {
        Some(launches) => out.show("", &launches),
        None => out.word("they differ"),
    }
}

/// Does with a world what is asked, and tells whether something is.
fn go(world: &mut World, out: &mut Out, asked: &Asked) -> bool {
    if asked.is("flow", 2) {
        flow(world, out, asked.ws(0), asked.ws(1));
        true
    } else if asked.is("reap", 1) {
        reap(world, out, asked.ws(0));
        true
    } else {
        match step_of(out, asked) {
            Some(step) => {
                take(world, out, &step);
                true
            }
            None => false,
        }
    }
}

/// Writes what is asked of a world, and tells whether something is.
fn tell(world: &World, out: &mut Out, asked: &Asked) -> bool {
    if asked.is("follow", 2) {
        put_followed(world, out, asked.ws(1), held(world, asked.ws(0)));
    } else if asked.is("follow-history", 1) {
        put_followed(world, out, asked.ws(0), world.history());
    } else if asked.is("best-launches", 1) {
        put_launches(world, out, asked.ws(0));
    } else if asked.is("counts", 0) {
        let (entries, starts) = (world.history().len(), world.starts().len());
        out.two("events ", &entries, " starts ", &starts);
    } else {
        return false;
    }
    true
}

fn in_world(night: &mut Night, out: &mut Out, asked: &Asked) -> bool {
    match &mut night.world {
        Some(world) => tell(world, out, asked) || go(world, out, asked),
        None => false,
    }
}

fn begin(night: &mut Night, out: &mut Out) {
    if let Some(net) = out.kept(night.net.copy()) {
        let world = World::new(out.alloc, net);
        night.world = out.kept(world);
    }
}

fn remember(night: &mut Night, out: &mut Out) {
    if let Some(world) = &night.world {
        if let Some(report) = report(out, world) {
            night.report = report;
        }
    }
}

fn is_unchanged(night: &Night, out: &mut Out) -> bool {
    match &night.world {
        Some(world) => is_reported(out, world, night.report.as_slice()),
        None => false,
    }
}

fn put_unchanged(night: &Night, out: &mut Out) {
    let same = is_unchanged(night, out);
    out.word(if same { "yes" } else { "no" })
}

fn ask(night: &mut Night, out: &mut Out, asked: &Asked) -> bool {
    if asked.is("world", 0) {
        begin(night, out);
    } else if asked.is("remember", 0) {
        remember(night, out);
    } else if asked.is("is-unchanged", 0) {
        put_unchanged(night, out);
    } else {
        return in_world(night, out, asked);
    }
    true
}

/// Begins, moves or tells of a world, and tells whether that is asked for.
pub fn ask_world(night: &mut Night, out: &mut Out, asked: &Asked) -> bool {
    let before = out.len();
    let is_asked = ask(night, out, asked);
    if is_asked && out.len() == before {
        out.word("done");
    }
    is_asked
}
