//! Whether one object reaches itself.
ghost use Rattle.std.specs.Prelude.{◌<◌, ◌↔◌, [], ◌∷◌, length, IfOk, OnOk, IsTrue};
ghost use Rattle.follow_circles.specs.Circles.{IsOnCircle};
ghost use Rattle.follow_circles.specs.Reached.{MarksThese};

use crate::circles::Follower;
use base_types::NoMemory;
use std::alloc::Global;

/// The objects that were reached, each once in the order in which they were, and a mark at each of them.
#[derive(Drop)]
pub(crate) struct Reached {
    marks: Vec<bool>,
    places: Vec<usize>,
}

/// Whether the object at a place follows itself, directly or through others.
pub(crate) fn is_on_circle(alloc: Global, objects: &[Follower], v: usize) -> Result<bool, NoMemory>
    requires { v < length objects.now }
    ensures { IfOk result (λ b. IsTrue b ↔ IsOnCircle objects.now v) }
{
    let mut reached = Reached {
        marks: vec![in alloc; false; objects.len()]?,
        places: Vec::new(alloc),
    };
    put_all(&mut reached, objects[v].follows.as_slice())?;
    for at in 0..objects.len() {
        let Some(place) = reached.places.get(at).copied() else {
            break;
        };
        if let Some(object) = objects.get(place) {
            put_all(&mut reached, object.follows.as_slice())?;
        }
    }
    Ok(reached.marks[v])
}

/// Marks these places, and puts those that had no mark behind the others.
fn put_all(reached: &mut Reached, places: &[usize]) -> Result<(), NoMemory>
    ensures { OnOk result (MarksThese reached.old reached.new places.now) }
{
    for place in places {
        put(reached, *place)?;
    }
    Ok(())
}

/// Marks a place that has no mark yet. One past the end has none.
fn put(reached: &mut Reached, place: usize) -> Result<(), NoMemory>
    ensures { OnOk result (MarksThese reached.old reached.new (place ∷ [])) }
{
    if place >= reached.marks.len() || reached.marks[place] {
        return Ok(());
    }
    reached.places.push(place)?;
    reached.marks[place] = true;
    Ok(())
}
