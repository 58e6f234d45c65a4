//! The plans of a record, which its lines take one by one.
ghost use Rattle.std.specs.Prelude.{◌≡◌, ◌<◌, [], Some, drop, length, slice_get, slice_set};
ghost use Rattle.record_runs.specs.Lines.{next_plan};

use base_types::{Items, StreamDrafts};
use record_script::Plans;
use std::alloc::Global;
use std::marker::Model;
use std::mem;

/// The plans that no line has taken yet. Contracts see these alone.
#[derive(Drop)]
pub(crate) struct PlansLeft {
    alloc: Global,
    plans: Plans,
    taken: usize,
}

impl Model for PlansLeft {
    ghost use Rattle.std.specs.Prelude.{List, drop};
    ghost use Rattle.model.specs.Types.{StreamDraft};

    ghost Value = { List (List StreamDraft) };

    ghost view = { λ a. drop a.taken a.plans };
}

/// Takes the drafts of a plan out of their place, in which others are left.
fn taken_at(plans: &mut Plans, i: usize, others: StreamDrafts) -> Option<StreamDrafts>
    requires { i < length plans.old }
    ensures drafts { result ≡ slice_get plans.old i }
    ensures left { plans.new ≡ slice_set plans.old i others }
{
    match plans.get_mut(i) {
        None => None,
        Some(drafts) => Some(mem::replace(drafts, others)),
    }
}

impl PlansLeft {
    /// All plans of a record.
    pub(crate) fn new(alloc: Global, plans: Plans) -> PlansLeft
        ensures { result ≡ plans }
    {
        PlansLeft {
            alloc,
            plans,
            taken: 0,
        }
    }

    /// Takes the next plan. It has no drafts where no plan is left.
    pub(crate) fn take(&mut self) -> StreamDrafts
        ensures drafts { result ≡ next_plan self.old }
        ensures left { self.new ≡ drop 1 self.old }
    {
        if self.taken >= self.plans.len() {
            return Items::new(self.alloc);
        }
        let empty = Items::new(self.alloc);
        let place = self.taken;
        self.taken += 1;
        match taken_at(&mut self.plans, place, empty) {
            Some(drafts) => drafts,
            None => Items::new(self.alloc),
        }
    }
}
