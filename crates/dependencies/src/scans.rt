//! The lowest own members that may be released or may end, by a walk over the streams that wait or are under way.
ghost use Rattle.std.specs.Prelude.{◌≡◌, filter, nat_lt, true};
ghost use Rattle.std.specs.Option.{option_map_or};
ghost use Rattle.model.specs.Words.{least};
ghost use Rattle.model.specs.History.{view_of};
ghost use Rattle.model.specs.OwnMembers as spec;

use crate::dues::lower;
use crate::releases::{may_end_in, may_release_in};
use base_types::{StreamNo, Ws};
use network_tree::Network;
use owner_fold::Owners;

/// The lowest own member of w that may be released.
pub(crate) fn lowest_to_release(net: &Network, o: &Owners, w: Ws) -> Option<StreamNo>
    ensures { let V = view_of o.now in result ≡ least (filter (spec.may_release net.now V w) (spec.own_numbers V w)) }
{
    let mut lowest = None;
    for doc in o.streams_waiting(w) {
        if !is_below(lowest, doc.no.0) {
            continue;
        }
        if may_release_in(net, o, w, doc) {
            lowest = Some(lower(lowest, doc.no.0));
        }
    }
    match lowest {
        None => None,
        Some(number) => Some(StreamNo(number)),
    }
}

/// The lowest own member of w that may end.
pub(crate) fn lowest_to_end(o: &Owners, w: Ws) -> Option<StreamNo>
    ensures { let V = view_of o.now in result ≡ least (filter (spec.may_end V w) (spec.own_numbers V w)) }
{
    let mut lowest = None;
    for doc in o.streams_under_way(w) {
        if !is_below(lowest, doc.no.0) {
            continue;
        }
        if may_end_in(o, w, doc) {
            lowest = Some(lower(lowest, doc.no.0));
        }
    }
    match lowest {
        None => None,
        Some(number) => Some(StreamNo(number)),
    }
}

/// Whether a number is lower than one that may be there. So what is no lower is not asked further.
fn is_below(lowest: Option<u32>, number: u32) -> bool
    ensures { result ≡ option_map_or (nat_lt number) lowest true }
{
    match lowest {
        None => true,
        Some(before) => number < before,
    }
}
