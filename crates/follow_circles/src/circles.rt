//! The least line of the objects on circles.
ghost use Rattle.std.specs.Prelude.{◌≡◌, IfOk};
ghost use Rattle.model.specs.Words as spec;
ghost use Rattle.follow_circles.specs.Circles.{IsLeastLine};

use crate::asking::is_on_circle;
use crate::grouping::groups_of;
use crate::groups::{are_groups, least_within};
use base_types::{Items, NoMemory};
use std::alloc::Global;

/// An object, and what it follows.
#[derive(Drop)]
pub struct Follower {
    pub line: u32,
    /// The places of what it follows, counted from 0. A place past the end is that of nothing.
    pub follows: Items<usize>,
}

/// The least line of the objects that follow themselves, directly or through others. None where no object does.
pub fn least_line(alloc: Global, objects: &[Follower]) -> Result<Option<u32>, NoMemory>
    ensures { IfOk result (λ found. IsLeastLine objects.now found) }
{
    let numbers = groups_of(alloc, objects)?;
    let groups = numbers.as_slice();
    if are_groups(objects, groups) {
        match least_within(objects, groups) {
            None => return Ok(None),
            Some(v) => {
                if is_on_circle(alloc, objects, v)? {
                    return Ok(Some(objects[v].line));
                }
            }
        }
    }
    least_of_all(alloc, objects)
}

/// The same, by asking each object.
fn least_of_all(alloc: Global, objects: &[Follower]) -> Result<Option<u32>, NoMemory>
    ensures { IfOk result (λ found. IsLeastLine objects.now found) }
{
    let mut least = None;
    for place in 0..objects.len() {
        if is_on_circle(alloc, objects, place)? {
            least = lesser(least, objects[place].line);
        }
    }
    Ok(least)
}

/// The lesser of a line and one that may be there.
pub(crate) fn lesser(least: Option<u32>, line: u32) -> Option<u32>
    ensures { result ≡ Some (spec.lesser line least) }
{
    match least {
        Some(other) if other <= line => Some(other),
        _ => Some(line),
    }
}
