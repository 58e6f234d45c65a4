//! Days in ascending order.
use base_types::NoMemory;
use std::alloc::Global;
use std::collections::BTreeSet;
use std::marker::Model;

/// Days in ascending order, each once.
#[derive(Drop)]
pub struct SortedDays {
    days: Vec<u32>,
}

impl Model for SortedDays {
    ghost use Rattle.std.specs.Prelude.{ℕ, List};
    ghost use Rattle.std.specs.List.Sorted.{IsStrictlyIncreasing};

    ghost Value = { List ℕ };

    ghost view = { λ sorted. sorted.days.items };

    ghost invariant = { λ sorted. IsStrictlyIncreasing sorted.days.items };
}

impl SortedDays {
    ghost use Rattle.std.specs.Prelude.{◌≡◌, ◌≤◌, ℕ, IfOk, length};
    ghost use Rattle.std.specs.List.Sorted.{IsStrictlyIncreasing};
    ghost use Rattle.calendars.specs.Sets.{has};
    ghost use Rattle.day_counts.specs.Counts as spec;

    /// These days, which may repeat and stand in any order.
    pub fn of(alloc: Global, days: &[u32]) -> Result<SortedDays, NoMemory>
        ensures same { IfOk result (λ sorted. (day : ℕ) → has sorted day ≡ has days.now day) }
        ensures ascending { IfOk result IsStrictlyIncreasing }
    {
        let set = set_of(alloc, days)?;
        let days = listed(alloc, &set)?;
        Ok(SortedDays { days })
    }

    /// The days.
    pub fn as_slice(&self) -> &[u32]
        ensures value { result.now ≡ self.now }
        ensures ascending { IsStrictlyIncreasing self.now }
    {
        self.days.as_slice()
    }

    /// How many of the days stand before a day.
    pub fn count_before(&self, day: u32) -> usize
        ensures count { result ≡ spec.rank self.now day }
        ensures few { result ≤ length self.now }
        ensures ascending { IsStrictlyIncreasing self.now }
    {
        rank_of(self.as_slice(), day)
    }
}

ghost use Rattle.std.specs.Prelude.{◌≡◌, ◌≤◌, ℕ, IfOk, length};
ghost use Rattle.std.specs.List.Sorted.{IsStrictlyIncreasing};
ghost use Rattle.calendars.specs.Sets.{has};
ghost use Rattle.day_counts.specs.Counts as spec;

/// The set of these days.
fn set_of(alloc: Global, days: &[u32]) -> Result<BTreeSet<u32>, NoMemory>
    ensures same { IfOk result (λ set. (day : ℕ) → has set.keys day ≡ has days.now day) }
    ensures ascending { IfOk result (λ set. IsStrictlyIncreasing set.keys) }
{
    let mut set = BTreeSet::new(alloc);
    for day in days {
        set.insert(*day)?;
    }
    Ok(set)
}

/// The days of a set.
fn listed(alloc: Global, set: &BTreeSet<u32>) -> Result<Vec<u32>, NoMemory>
    ensures { IfOk result (λ days. days.items ≡ set.now.keys) }
{
    let mut days = Vec::new(alloc);
    for day in set {
        days.push(*day)?;
    }
    Ok(days)
}

/// How many of ascending days stand before a day.
fn rank_of(days: &[u32], day: u32) -> usize
    requires { IsStrictlyIncreasing days.now }
    ensures count { result ≡ spec.rank days.now day }
    ensures few { result ≤ length days.now }
{
    days.partition_point(|one| *one < day)
}
