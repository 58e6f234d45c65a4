//! The packets from one workstation to another.
ghost use Rattle.std.specs.Prelude.{◌≡◌, ◌∷◌, ◌<◌, ◌≤◌, ◌^◌, [], List, None, Some, OnOk, length, map, slice_get, true};
ghost use Rattle.std.specs.Option.{option_copied};
ghost use Rattle.model.specs.Types.{Out as Given};
ghost use Rattle.model.specs.Words.{nth};
ghost use Rattle.network_world.specs.Lanes.{GetsPacket, HasMore, HasRoomAt, HaveMore, HaveRoom, HaveRoomBut, HaveRoomFor, IsMarked, seen};
ghost use Rattle.network_world.specs.declared.lanes.Lane.{Lane as Raw};

use base_types::{Growing, Items, NoMemory, Out, Packet, Ws};
use std::alloc::Global;

/// To no workstation go more packets in one step.
const ROOM: u32 = 8;

/// The packets ever sent from one workstation to another, and the greatest number delivered.
#[derive(Drop)]
pub(crate) struct Lane {
    pub(crate) packets: Growing<Packet>,
    pub(crate) reached: u32,
}

impl Lane {
    /// No packets, which takes no memory yet.
    pub(crate) fn new(alloc: Global) -> Lane
        ensures packets { result.packets.items ≡ [] }
        ensures reached { result.reached ≡ 0 }
    {
        Lane {
            packets: Growing::new(alloc),
            reached: 0,
        }
    }

    /// How many packets there are.
    pub(crate) fn count(&self) -> u32
        requires { length self.now.packets.items < 2 ^ 32 }
        ensures { result ≡ length self.now.packets.items }
    {
        self.packets.len() as u32
    }

    /// The packet of a number, from 1. None where there is no such packet.
    pub(crate) fn packet(&self, k: u32) -> Option<&Packet>
        ensures { option_copied result ≡ nth self.now.packets.items k }
    {
        if k == 0 {
            return None;
        }
        self.packets.get((k - 1) as usize)
    }

    /// Puts a packet at the end. There is room for it.
    fn put(&mut self, packet: &Packet)
        requires { 1 ≤ self.old.packets.spare }
        ensures { HasMore (packet.now ∷ []) self.old self.new }
    {
        match packet {
            Packet::Mail(feed, place) => self.packets.put(Packet::Mail(*feed, *place)),
            Packet::Ack(feed, count) => self.packets.put(Packet::Ack(*feed, *count)),
        }
    }
}

/// Makes room in one lane, where there is such a lane. The packets stay, whatever comes.
fn make_room_at(lanes: &mut Items<Lane>, i: usize) -> Result<(), NoMemory>
    ensures there { (l : Raw) → slice_get lanes.old i ≡ Some l
        → (m : Raw) × HasRoomAt lanes.old i l m lanes.new × OnOk result (8 ≤ m.packets.spare) }
    ensures none { slice_get lanes.old i ≡ None → lanes.new ≡ lanes.old }
{
    match lanes.get_mut(i) {
        Some(lane) => lane.packets.reserve(ROOM),
        None => Ok(()),
    }
}

/// Makes room in each lane for what a step may send, where it is not known that there is such room. The packets stay,
/// whatever comes.
pub(crate) fn make_room(lanes: &mut Items<Lane>, roomy: bool) -> Result<(), NoMemory>
    requires { roomy ≡ true → HaveRoom 8 lanes.old }
    ensures same { map seen lanes.new ≡ map seen lanes.old }
    ensures room { OnOk result (HaveRoom 8 lanes.new) }
{
    if roomy {
        return Ok(());
    }
    for i in 0..lanes.len() {
        make_room_at(lanes, i)?;
    }
    Ok(())
}

/// Makes room again in the lane to which this went, where there is one. The packets stay, whatever comes.
fn keep_room_for(lanes: &mut Items<Lane>, out: &Out) -> Result<(), NoMemory>
    ensures same { map seen lanes.new ≡ map seen lanes.old }
    ensures room { OnOk result ((outs : List Given) → HaveRoomBut (out.now ∷ outs) lanes.old → HaveRoomBut outs lanes.new) }
{
    match out {
        Out::Send(to, _packet) => make_room_at(lanes, usize::from(to.0)),
        _ => Ok(()),
    }
}

/// Makes room again in the lanes to which this went, so that each has room for what a step may send. The packets stay,
/// whatever comes.
pub(crate) fn keep_room(lanes: &mut Items<Lane>, outs: &[Out]) -> Result<(), NoMemory>
    requires { HaveRoomBut outs.now lanes.old }
    ensures same { map seen lanes.new ≡ map seen lanes.old }
    ensures room { OnOk result (HaveRoom 8 lanes.new) }
{
    for out in outs {
        keep_room_for(lanes, out)?;
    }
    Ok(())
}

/// Puts a packet at the end of the lane to a workstation, where there is such a lane. It has room for it.
fn put_packet(lanes: &mut Items<Lane>, to: Ws, packet: &Packet)
    requires { (l : Raw) → slice_get lanes.old to ≡ Some l → 1 ≤ l.packets.spare }
    ensures there { (l : Raw) → slice_get lanes.old to ≡ Some l → GetsPacket lanes.old to packet.now l lanes.new }
    ensures none { slice_get lanes.old to ≡ None → lanes.new ≡ lanes.old }
{
    if let Some(lane) = lanes.get_mut(usize::from(to.0)) {
        lane.put(packet);
    }
}

/// Puts what goes out to a workstation at the end of its lane. It has room for it.
fn put_send(lanes: &mut Items<Lane>, out: &Out)
    requires { HaveRoomFor (out.now ∷ []) lanes.old }
    ensures { HaveMore (out.now ∷ []) lanes.old lanes.new }
{
    if let Out::Send(to, packet) = out {
        put_packet(lanes, *to, packet);
    }
}

/// Puts what goes out to workstations at the ends of their lanes. They have room for it.
pub(crate) fn put_sends(lanes: &mut Items<Lane>, outs: &[Out])
    requires { HaveRoomFor outs.now lanes.old }
    ensures { HaveMore outs.now lanes.old lanes.new }
{
    for out in outs {
        put_send(lanes, out);
    }
}

/// The packet of this number in the lane to a workstation was delivered.
pub(crate) fn mark_lane(lanes: &mut Items<Lane>, to: Ws, k: u32)
    requires { to < length lanes.old }
    ensures { (l : Raw) → slice_get lanes.old to ≡ Some l → IsMarked lanes.old to k l lanes.new }
{
    if let Some(lane) = lanes.get_mut(usize::from(to.0)) {
        if lane.reached < k {
            lane.reached = k;
        }
    }
}
