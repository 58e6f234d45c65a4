//! The groups of objects that reach each other, in one walk. What is computed here is tested afterwards, so nothing is
//! promised of it.
use crate::circles::Follower;
use crate::tables::{number_at, set_number};
use base_types::NoMemory;
use std::alloc::Global;

/// A walk down what objects follow. Numbers count from 1, and 0 stands for none yet.
#[derive(Drop)]
struct Walk {
    /// In which order objects were met.
    met: Vec<usize>,
    /// The first met object that is known to be reached from here and to lead back here.
    back: Vec<usize>,
    /// The groups.
    groups: Vec<usize>,
    /// How many of those that an object follows were looked at.
    seen: Vec<usize>,
    /// Objects that were met and have no group yet.
    waiting: Vec<usize>,
    /// The objects from the first one down to the present one.
    path: Vec<usize>,
    met_count: usize,
    group_count: usize,
}

/// A number for each object, the same for those that reach each other, and never less than that of what is followed.
pub(crate) fn groups_of(alloc: Global, objects: &[Follower]) -> Result<Vec<usize>, NoMemory> {
    let count = objects.len();
    let mut walk = Walk {
        met: vec![in alloc; 0; count]?,
        back: vec![in alloc; 0; count]?,
        groups: vec![in alloc; 0; count]?,
        seen: vec![in alloc; 0; count]?,
        waiting: Vec::new(alloc),
        path: Vec::new(alloc),
        met_count: 0,
        group_count: 0,
    };
    for v in 0..count {
        if number_at(walk.met.as_slice(), v) == 0 {
            walk.enter(v)?;
            walk.run(objects)?;
        }
    }
    let Walk { groups, .. } = walk;
    Ok(groups)
}

impl Walk {
    /// Meets an object.
    fn enter(&mut self, v: usize) -> Result<(), NoMemory> {
        self.met_count = self.met_count.saturating_add(1);
        let number = self.met_count;
        set_number(&mut self.met, v, number);
        set_number(&mut self.back, v, number);
        self.waiting.push(v)?;
        self.path.push(v)?;
        Ok(())
    }

    /// Takes steps until the path is empty.
    fn run(&mut self, objects: &[Follower]) -> Result<(), NoMemory> {
        for _step in 0..usize::MAX {
            let Some(v) = self.path.last().copied() else {
                break;
            };
            match self.next_of(objects, v) {
                Some(w) => self.look_at(v, w)?,
                None => self.leave(v),
            }
        }
        Ok(())
    }

    /// The next of those that an object follows.
    fn next_of(&mut self, objects: &[Follower], v: usize) -> Option<usize> {
        let place = number_at(self.seen.as_slice(), v);
        let found = match objects.get(v) {
            Some(object) => object.follows.get(place).copied(),
            None => None,
        };
        if found.is_some() {
            set_number(&mut self.seen, v, place.saturating_add(1));
        }
        found
    }

    /// Goes to what an object follows where it was not met yet, or notes how far back it leads.
    fn look_at(&mut self, v: usize, w: usize) -> Result<(), NoMemory> {
        if w >= self.met.len() {
            return Ok(());
        }
        let met = number_at(self.met.as_slice(), w);
        if met == 0 {
            return self.enter(w);
        }
        if number_at(self.groups.as_slice(), w) == 0 {
            self.lead_back(v, met);
        }
        Ok(())
    }

    /// Notes that an object leads back to one that was met in this place of the order.
    fn lead_back(&mut self, v: usize, met: usize) {
        if met < number_at(self.back.as_slice(), v) {
            set_number(&mut self.back, v, met);
        }
    }

    /// Leaves an object, with its group where it was the first of it that was met.
    fn leave(&mut self, v: usize) {
        let _left = self.path.pop();
        let back = number_at(self.back.as_slice(), v);
        if back == number_at(self.met.as_slice(), v) {
            self.close_group(v);
        }
        if let Some(above) = self.path.last().copied() {
            self.lead_back(above, back);
        }
    }

    /// Gives a group to those that wait, down to this one.
    fn close_group(&mut self, v: usize) {
        self.group_count = self.group_count.saturating_add(1);
        let group = self.group_count;
        for _taken in 0..self.waiting.len() {
            let Some(w) = self.waiting.pop() else {
                break;
            };
            set_number(&mut self.groups, w, group);
            if w == v {
                break;
            }
        }
    }
}
