//! What a workstation tells of itself.
ghost use Rattle.std.specs.Prelude.{◌≡◌};
ghost use Rattle.model.specs.Types.{Events};
ghost use Rattle.model.specs.History.{view_of};
ghost use Rattle.symphony_view.specs.Cpus as spec;

use base_types::{Feed, Ws};
use owner_fold::Owners;

/// What a workstation tells of itself, by the events of it that are held.
#[derive(Clone, Copy)]
pub(crate) struct Cpu {
    /// How many of its events are held.
    pub(crate) held: u32,
    pub(crate) fence: u8,
    pub(crate) limit: u16,
    /// In seconds since 1970, UTC.
    pub(crate) clock: u64,
    pub(crate) stopped: bool,
}

/// What w tells of itself.
pub(crate) fn cpu_of(o: &Owners, w: Ws) -> Cpu
    ensures { result ≡ spec.cpu_of (view_of o.now (Events w)) }
{
    Cpu {
        held: o.count(Feed::Events(w)),
        fence: o.fence(w),
        limit: o.limit(w),
        clock: o.now(w).0,
        stopped: o.is_stopped(w),
    }
}
