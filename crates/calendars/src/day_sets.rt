//! Sets of days.
use base_types::NoMemory;
use std::alloc::Global;
use std::collections::BTreeSet;
use std::marker::Model;

/// A set of days, seen as the list of its days, each once, in ascending order.
#[derive(Drop)]
pub struct DaySet {
    days: BTreeSet<u32>,
}

impl Model for DaySet {
    ghost use Rattle.std.specs.Prelude.{ℕ, List};

    ghost Value = { List ℕ };

    ghost view = { λ set. set.days.keys };
}

impl DaySet {
    ghost use Rattle.std.specs.Prelude.{◌≡◌, ◌↔◌, ℕ, IfOk, Contains};
    ghost use Rattle.std.specs.List.Sorted.{IsStrictlyIncreasing};
    ghost use Rattle.calendars.specs.Sets as spec;

    /// The set of these days, which may repeat and stand in any order.
    pub fn of(alloc: Global, days: &[u32]) -> Result<DaySet, NoMemory>
        ensures same { IfOk result (λ set. (day : ℕ) → spec.has set day ≡ spec.has days.now day) }
        ensures ascending { IfOk result IsStrictlyIncreasing }
    {
        let mut set = BTreeSet::new(alloc);
        for day in days {
            set.insert(*day)?;
        }
        Ok(DaySet { days: set })
    }

    /// Whether the day is one of the set.
    pub fn has(&self, day: u32) -> bool
        ensures { result ≡ spec.has self.now day }
    {
        self.days.contains(&day)
    }
}
