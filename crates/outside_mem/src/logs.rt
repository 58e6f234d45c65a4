// Values that are kept as long as there is room.
ghost use Rattle.std.specs.Prelude.{◌≡◌, IfOk};
ghost use Rattle.outside_mem.specs.Rooms.{no_items, with_item};

use base_types::NoMemory;
use std::alloc::Global;
use std::marker::Model;

/// Values in room that was taken when this was made. What comes past the room is not kept.
#[derive(Drop)]
pub struct Log<T> {
    items: Vec<T>,
    room: usize,
    whole: bool,
}

impl<T> Model for Log<T> {
    ghost use Rattle.std.specs.Prelude.{◌≤◌, length, vec_capacity};
    ghost use Rattle.outside_mem.specs.Rooms.{Logged};

    ghost Value = { Logged T };

    ghost view = { λ l. record { items = l.items.items; room = l.room; whole = l.whole } };

    ghost invariant = { λ l. (length l.items.items ≤ l.room) × (l.room ≤ vec_capacity l.items) };
}

impl<T> Log<T> {
    /// Nothing came yet. There is room for so many. `NoMemory` where there is none.
    pub fn new(alloc: Global, room: u32) -> Result<Self, NoMemory>
        ensures { IfOk result (λ l. l ≡ no_items room) }
    {
        let room = room as usize;
        Ok(Log {
            items: Vec::with_capacity(alloc, room)?,
            room,
            whole: true,
        })
    }

    /// Keeps one more, or notes that there is no room for it.
    pub fn note(&mut self, item: T)
    where
        T: Drop,
        ensures { self.new ≡ with_item item self.old }
    {
        if self.items.len() < self.room {
            self.items.push_reserved(item);
        } else {
            self.whole = false;
        }
    }

    /// What was kept, in order.
    pub fn items(&self) -> &[T]
        ensures { result.now ≡ self.now.items }
    {
        &self.items
    }

    /// Whether all that came was kept.
    pub fn is_whole(&self) -> bool
        ensures { result ≡ self.now.whole }
    {
        self.whole
    }
}
