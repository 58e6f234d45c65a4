//! Whether a plan carries exactly what the network's option takes of the streams that were unfinished.
ghost use Rattle.std.specs.Prelude.{◌≡◌, Some, slice_get};
ghost use Rattle.std.specs.Bool.{Decides};
ghost use Rattle.model.specs.Words as words;
ghost use Rattle.model.specs.Words.{IsPartOf};
ghost use Rattle.model.specs.History.{view_of};
ghost use Rattle.model.specs.Catalogue.{members};
ghost use Rattle.counted_decisions.specs.Sights.{CountsAllOf, IsSight, seen_in};
ghost use Rattle.event_audit.specs.Plans.{AreTheTaken, CarriesExactly};

use base_types::StreamNo;
use counted_decisions::{Sight, is_carried};
use network_tree::Network;
use owner_fold::Owners;

/// Whether a number is among these.
fn has(numbers: &[StreamNo], s: StreamNo) -> bool
    ensures { result ≡ words.has numbers.now s }
{
    for number in numbers {
        if number.0 == s.0 {
            return true;
        }
    }
    false
}

/// Whether a number stands at a place, counted from 0.
fn stands_at(numbers: &[StreamNo], place: usize, s: StreamNo) -> bool
    ensures { Decides result (slice_get numbers.now place ≡ Some s) }
{
    match numbers.get(place) {
        None => false,
        Some(number) => number.0 == s.0,
    }
}

/// Whether the first numbers are some of the second, in the same order.
fn is_part_of(part: &[StreamNo], whole: &[StreamNo]) -> bool
    ensures { Decides result (IsPartOf part.now whole.now) }
{
    let mut found = 0;
    for number in whole {
        if stands_at(part, found, *number) {
            found += 1;
        }
    }
    found == part.len()
}

/// Whether a plan that was made of what is counted carries its members in order, and exactly those that the network's
/// option takes.
pub(crate) fn carries_exactly(net: &Network, sight: &Sight<'_>, carried: &[StreamNo]) -> bool
    requires sight { IsSight sight.now }
    requires own { CountsAllOf 0 sight.now }
    ensures { Decides result (CarriesExactly net.now.carry (seen_in sight.now) carried.now) }
{
    if !carries_in_order(sight.owners, carried) {
        return false;
    }
    carries_the_taken(net, sight, carried)
}

/// Whether the carried streams are members, in order.
fn carries_in_order(owners: &Owners, carried: &[StreamNo]) -> bool
    ensures { Decides result (IsPartOf carried.now (members (view_of owners.now))) }
{
    is_part_of(carried, owners.members().as_slice())
}

/// Whether exactly those of the members are carried that the option takes.
fn carries_the_taken(net: &Network, sight: &Sight<'_>, carried: &[StreamNo]) -> bool
    requires { IsSight sight.now }
    ensures { let V = seen_in sight.now in
        Decides result (AreTheTaken net.now.carry V carried.now (members (view_of sight.now.owners.now))) }
{
    are_the_taken(net, sight, carried, sight.owners.members().as_slice())
}

/// Whether exactly those of these streams are carried that the option takes.
fn are_the_taken(
    net: &Network,
    sight: &Sight<'_>,
    carried: &[StreamNo],
    members: &[StreamNo],
) -> bool
    requires { IsSight sight.now }
    ensures { Decides result (AreTheTaken net.now.carry (seen_in sight.now) carried.now members.now) }
{
    for s in members {
        if has(carried, *s) != is_carried(net, sight, *s) {
            return false;
        }
    }
    true
}
