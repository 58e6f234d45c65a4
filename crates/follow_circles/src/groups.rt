//! Groups of objects, as a test that no circle leaves its group.
ghost use Rattle.std.specs.Prelude.{◌≡◌, ◌<◌, ◌==◌, ℕ, length, IsTrue, IfSome, nat_le, slice_index};
ghost use Rattle.std.specs.List.{list_any, list_all};
ghost use Rattle.follow_circles.specs.Circles.{line_of};
ghost use Rattle.follow_circles.specs.Groups as spec;
ghost use Rattle.follow_circles.specs.Groups.{AreGroups, IsLeastWithin};

use crate::circles::Follower;
use crate::tables::number_at;

/// Whether what an object follows never has a group of a greater number, for each object.
pub(crate) fn are_groups(objects: &[Follower], groups: &[usize]) -> bool
    ensures { IsTrue result → AreGroups objects.now groups.now }
{
    for v in 0..objects.len() {
        if !goes_down(&objects[v], groups, number_at(groups, v)) {
            return false;
        }
    }
    true
}

/// Whether all that an object follows has groups up to this one.
fn goes_down(object: &Follower, groups: &[usize], group: usize) -> bool
    ensures { result ≡ list_all (λ w. nat_le (slice_index groups.now w) group) object.now.follows }
{
    object
        .follows
        .as_slice()
        .iter()
        .all(|w| number_at(groups, *w) <= group)
}

/// Whether an object follows one of its own group.
fn stays(object: &Follower, groups: &[usize], group: usize) -> bool
    ensures { result ≡ list_any (λ w. slice_index groups.now w == group) object.now.follows }
{
    object
        .follows
        .as_slice()
        .iter()
        .any(|w| number_at(groups, *w) == group)
}

/// The place of an object of the least line among those that follow one of their own group.
pub(crate) fn least_within(objects: &[Follower], groups: &[usize]) -> Option<usize>
    ensures least { IsLeastWithin objects.now groups.now result }
    ensures inside { IfSome result (λ v. v < length objects.now) }
{
    let mut least: Option<usize> = None;
    for v in 0..objects.len() {
        if stays(&objects[v], groups, number_at(groups, v)) && is_less(objects, v, least) {
            least = Some(v);
        }
    }
    least
}

/// Whether the line at a place is below that at one that may be there.
fn is_less(objects: &[Follower], v: usize, least: Option<usize>) -> bool
    ensures { result ≡ spec.is_less objects.now v least }
{
    match least {
        Some(other) => line_at(objects, v) < line_at(objects, other),
        None => true,
    }
}

fn line_at(objects: &[Follower], v: usize) -> u32
    ensures { result ≡ line_of objects.now v }
{
    match objects.get(v) {
        Some(object) => object.line,
        None => 0,
    }
}
