//! Services: a workstation of the definitions is served over its disk, or asked a command line.
ghost use Rattle.std.specs.Prelude.{ℕ, ◌<◌, ◌≡◌, ◌≢◌, ◌≤◌, List, Option, Result, Some, length, slice_get};
ghost use Rattle.base_types.specs.declared.Peer.{Peer as APeer};
ghost use Rattle.conman_client.specs.declared.ends.AskEnd.{AskEnd as AskEnds};
ghost use Rattle.model.specs.Network.{node_count};
ghost use Rattle.node_inputs.specs.Tellings.{told_by};
ghost use Rattle.node_lines.specs.Lines.{HasFitPlans};
ghost use Rattle.node_service.specs.declared.services.ServiceEnd.{ServiceEnd as ServiceEnds};
ghost use Rattle.outside.specs.Streams.{Stream as Streams};
ghost use Rattle.workload_defs.specs.Nets.{net_of, peers_of};
ghost use Rattle.node_commands.specs.Ends.{IsTold, answer_status, answer_text, end_status, end_text};
ghost use Rattle.node_commands.specs.Forms.{Request, request_of, requested, service_in};
ghost use Rattle.node_commands.specs.Services.{AskedBy, IsService, ReadsDefs, ServedBy};
ghost use Rattle.node_commands.specs.Unread.{IsToldUnread};
ghost use Rattle.node_commands.specs.declared.forms.Service.TheVariants as asks;

use crate::ends::{tell, tell_answer, tell_end};
use crate::forms::Service;
use crate::reading::{Unread, read_workload};
use base_types::{LONGEST_INPUT, LimitName, Text, Ws};
use conman_client::ask;
use file_watch::Prober;
use node_service::{Served, serve_node};
use outside::{Clock, Disk, Link, Sink, Source, Spawner};
use replies::{Status, limit_text, refusal_text, say};
use std::alloc::Global;
use workload_defs::Workload;

/// How a service ended: with an exit status, and the disk that was handed in.
#[derive(Drop)]
pub struct Ended<D> {
    pub status: u8,
    pub disk: D,
}

/// Does what a service asks for, with the definitions that the input is.
#[tactic(auto, using(crate::proofs::Coming::is_three))]
pub fn serve<I: Source, O: Sink, D: Disk, L: Link, J: Spawner, C: Clock, F: Prober>(
    alloc: Global,
    service: Service,
    words: &[Text],
    input: &mut I,
    out: &mut O,
    disk: D,
    link: &mut L,
    jobs: &mut J,
    clock: &mut C,
    files: &mut F,
) -> Ended<D>
    requires { service_in words.now ≡ Some service }
    ensures service { (request : Request) → request_of words.now ≡ Some request
        → IsService (ServedBy D.seen D.faults D.moment D.may_leave D.left_since disk result.disk
        (told_by (L.calls link.old) (J.calls jobs.old) (C.readings clock.old) (F.asked files.old))
        (told_by (L.calls link.new) (J.calls jobs.new) (C.readings clock.new) (F.asked files.new))
        ((link.new ≡ link.old) × (jobs.new ≡ jobs.old) × (clock.new ≡ clock.old) × (files.new ≡ files.old)))
        (AskedBy (L.calls link.old) (L.calls link.new) (L.faults link.old) (L.faults link.new))
        ((result.disk ≡ disk) × (link.new ≡ link.old) × (jobs.new ≡ jobs.old) × (clock.new ≡ clock.old)
        × (files.new ≡ files.old))
        ((result.disk ≡ disk) × (jobs.new ≡ jobs.old) × (clock.new ≡ clock.old) × (files.new ≡ files.old))
        request (I.stream input.old) (I.stream input.new) (I.faults input.old) (I.faults input.new) result.status
        (O.written out.old) (O.written out.new) (O.faults out.old) (O.faults out.new) }
    ensures source_count { result.status ≢ 4 → I.faults input.new ≡ I.faults input.old }
    ensures sink_count { result.status ≢ 5 → O.faults out.new ≡ O.faults out.old }
{
    match words {
        [_, name, last] => match read_workload(alloc, input) {
            Ok(workload) => at_station(
                alloc, service, &workload, name, last, out, disk, link, jobs, clock, files,
            ),
            Err(why) => Ended {
                status: tell_unread(alloc, out, why),
                disk,
            },
        },
        _ => unreachable!(),
    }
}

/// Says why no definitions were read. A fault of the source and want of memory are not said.
fn tell_unread<O: Sink>(alloc: Global, out: &mut O, why: Unread) -> u8
    ensures told { IsToldUnread why result (O.written out.old) (O.written out.new) (O.faults out.old) (O.faults out.new) }
    ensures sink_count { result ≢ 5 → O.faults out.new ≡ O.faults out.old }
{
    match why {
        Unread::Refused(refusal) => tell(
            out,
            Status::DefinitionsRefused,
            refusal_text(alloc, "definitions", refusal.line, refusal.kind.word()),
        ),
        Unread::TooLong => tell(
            out,
            Status::LimitPassed,
            limit_text(alloc, LimitName::Input, LONGEST_INPUT),
        ),
        Unread::SourceFailed => Status::SourceFailed.number(),
        Unread::NoMemory => Status::NoMemory.number(),
    }
}

/// Does what a service asks for at the workstation of a name.
fn at_station<O: Sink, D: Disk, L: Link, J: Spawner, C: Clock, F: Prober>(
    alloc: Global,
    service: Service,
    workload: &Workload,
    name: &Text,
    last: &Text,
    out: &mut O,
    disk: D,
    link: &mut L,
    jobs: &mut J,
    clock: &mut C,
    files: &mut F,
) -> Ended<D>
    requires short { service ≡ asks.Ask → length last.now ≤ 4096 }
    requires plans { HasFitPlans workload.now }
    ensures service { (old new : Option Streams) (source source' : ℕ) → ReadsDefs workload.now old new
        → IsService (ServedBy D.seen D.faults D.moment D.may_leave D.left_since disk result.disk
        (told_by (L.calls link.old) (J.calls jobs.old) (C.readings clock.old) (F.asked files.old))
        (told_by (L.calls link.new) (J.calls jobs.new) (C.readings clock.new) (F.asked files.new))
        ((link.new ≡ link.old) × (jobs.new ≡ jobs.old) × (clock.new ≡ clock.old) × (files.new ≡ files.old)))
        (AskedBy (L.calls link.old) (L.calls link.new) (L.faults link.old) (L.faults link.new))
        ((result.disk ≡ disk) × (link.new ≡ link.old) × (jobs.new ≡ jobs.old) × (clock.new ≡ clock.old)
        × (files.new ≡ files.old))
        ((result.disk ≡ disk) × (jobs.new ≡ jobs.old) × (clock.new ≡ clock.old) × (files.new ≡ files.old))
        (requested name.now last.now service) old new source source' result.status
        (O.written out.old) (O.written out.new) (O.faults out.old) (O.faults out.new) }
    ensures sink_count { result.status ≢ 5 → O.faults out.new ≡ O.faults out.old }
{
    match workload.station(name) {
        None => Ended {
            status: say(out, b"words refused\n", Status::WordsRefused),
            disk,
        },
        Some(me) => match service {
            Service::Node(turns) => {
                node(
                    alloc, workload, me, turns, out, disk, link, jobs, clock, files,
                )
            }
            Service::Ask => Ended {
                status: ask_station(alloc, workload, me, last, out, link),
                disk,
            },
        },
    }
}

/// Serves a workstation, and says how that ended.
fn node<O: Sink, D: Disk, L: Link, J: Spawner, C: Clock, F: Prober>(
    alloc: Global,
    workload: &Workload,
    me: Ws,
    turns: u32,
    out: &mut O,
    disk: D,
    link: &mut L,
    jobs: &mut J,
    clock: &mut C,
    files: &mut F,
) -> Ended<D>
    requires inside { me < node_count (net_of workload.now) }
    requires plans { HasFitPlans workload.now }
    ensures served { (end : ServiceEnds)
        × ServedBy D.seen D.faults D.moment D.may_leave D.left_since disk result.disk
        (told_by (L.calls link.old) (J.calls jobs.old) (C.readings clock.old) (F.asked files.old))
        (told_by (L.calls link.new) (J.calls jobs.new) (C.readings clock.new) (F.asked files.new))
        ((link.new ≡ link.old) × (jobs.new ≡ jobs.old) × (clock.new ≡ clock.old) × (files.new ≡ files.old)) workload.now me turns end
        × IsTold (end_status end) (end_text end) result.status (O.written out.old) (O.written out.new) (O.faults out.old)
        (O.faults out.new) }
    ensures sink_count { result.status ≢ 5 → O.faults out.new ≡ O.faults out.old }
{
    let Served { end, disk } = serve_node(
        alloc, disk, workload, me, turns, link, jobs, clock, files,
    );
    Ended {
        status: tell_end(alloc, out, end),
        disk,
    }
}

/// Asks a workstation a command line, and says what it answers.
fn ask_station<O: Sink, L: Link>(
    alloc: Global,
    workload: &Workload,
    me: Ws,
    command: &Text,
    out: &mut O,
    link: &mut L,
) -> u8
    requires there { me < length (peers_of workload.now) }
    requires short { length command.now ≤ 4096 }
    ensures asked { (peer : APeer) × (slice_get (peers_of workload.now) me ≡ Some peer) × (answer : Result (List ℕ) AskEnds)
        × AskedBy (L.calls link.old) (L.calls link.new) (L.faults link.old) (L.faults link.new) peer command.now answer
        × IsTold (answer_status answer) (answer_text answer) result (O.written out.old) (O.written out.new)
        (O.faults out.old) (O.faults out.new) }
    ensures sink_count { result ≢ 5 → O.faults out.new ≡ O.faults out.old }
{
    match workload.peers().get(usize::from(me.0)) {
        Some(peer) => tell_answer(out, ask(alloc, link, peer, command)),
        None => unreachable!(),
    }
}
