//! Passes of running nodes that overlap can be told one behind the other.
//!
//! The laws on rounds of running nodes tell each pass as a whole where its arrival comes. In a network passes overlap: one
//! node sends while another looks at its clock. Here their events come in whatever order; all that is asked is that what a
//! pass hears was sent by then. Then the same nodes do the same in whole passes, one behind the other.
#![tactic(auto)]

ghost use Rattle.std.specs.Prelude.{◌≡◌, ℕ, List};
ghost use Rattle.composer_parser.specs.declared.Defs.{Defs};
ghost use Rattle.network_runs.specs.Happenings.{Night};
ghost use Rattle.nights_at_rest.specs.Passes.{ArePasses, Pass, happened};
ghost use Rattle.nights_at_rest.specs.Still.{Nodes};
ghost use Rattle.overlapping_passes.specs.Overlaps.{AreBetween, AreMoments, Moment, did, from_here};

/// Where passes overlap, from a moment between passes to one between passes, there are whole passes, one behind the other,
/// by which the nodes come to the same, each having done the same in the same order; and what a pass hears was sent in passes
/// before it.
pub fn overlapping_passes_stand_one_behind_the_other()
    ensures { (defs : Defs) (before : Night) (k : ℕ) (old : Nodes) (end_ : Moment)
        → AreMoments defs before k (from_here old) end_ → AreBetween end_
        → (ps : List Pass) × ArePasses defs before ps old end_.nodes
        × ((w : ℕ) → did w (happened ps) ≡ did w end_.night) }
{}
