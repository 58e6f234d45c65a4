//! The limits of a world.
ghost use Rattle.std.specs.Prelude.{◌≡◌, ◌<◌, None};
ghost use Rattle.network_world.specs.Refusals as spec;

use base_types::LimitName;

/// The first limit that these numbers of steps, packets and kept bytes have reached.
pub(crate) fn limit_at(taken: u32, sent: u32, kept: u32) -> Option<LimitName>
    ensures value { result ≡ spec.limit_at taken sent kept }
    ensures taken { result ≡ None → taken < 200000 }
    ensures sent { result ≡ None → sent < 20000000 }
    ensures kept { result ≡ None → kept < 268435456 }
{
    if taken >= LimitName::Steps.number() {
        return Some(LimitName::Steps);
    }
    if sent >= LimitName::Packets.number() {
        return Some(LimitName::Packets);
    }
    if kept >= LimitName::Bytes.number() {
        return Some(LimitName::Bytes);
    }
    None
}
