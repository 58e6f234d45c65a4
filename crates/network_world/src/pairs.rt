//! How many packets went from each workstation to each other.
ghost use Rattle.std.specs.Prelude.{◌≡◌, ◌++◌, ◌∷◌, ◌<◌, [], IfOk, OnOk};
ghost use Rattle.model.specs.Words.{below};
ghost use Rattle.model.specs.Network.{node_count};
ghost use Rattle.model.specs.World as model;
ghost use Rattle.network_world.specs.Parts.{pairs_among, pairs_from};
ghost use Rattle.network_world.specs.Standing.{StandsFor};

use crate::worlds::World;
use base_types::{Items, NoMemory, PairCount, PairCounts, Ws};

impl World {
    /// Adds how many packets went from a to b, where there are any.
    fn add_pair(&self, counts: &mut PairCounts, a: Ws, b: Ws) -> Result<(), NoMemory>
        requires from { a < node_count self.now.net }
        requires to { b < node_count self.now.net }
        ensures { (x : model.World) → StandsFor self.now x
            → OnOk result (counts.new ≡ counts.old ++ pairs_from x a (b ∷ [])) }
    {
        let count = self.packets(a, b);
        if count == 0 {
            return Ok(());
        }
        counts.push(PairCount {
            from: a,
            to: b,
            count,
        })
    }

    /// Adds how many packets went from a to each workstation to which any went.
    fn add_pairs_from(&self, counts: &mut PairCounts, a: Ws) -> Result<(), NoMemory>
        requires { a < node_count self.now.net }
        ensures { (x : model.World) → StandsFor self.now x
            → OnOk result (counts.new ≡ counts.old ++ pairs_from x a (below (node_count self.now.net))) }
    {
        for b in 0..self.net().count() {
            self.add_pair(counts, a, Ws(b))?;
        }
        Ok(())
    }

    /// How many packets went from each workstation to each other, where there are any, in ascending order.
    pub(crate) fn pair_counts(&self) -> Result<PairCounts, NoMemory>
        ensures { IfOk result (λ counts. (x : model.World) → StandsFor self.now x
            → counts ≡ pairs_among x (node_count self.now.net)) }
    {
        let mut counts = Items::new(self.alloc);
        for a in 0..self.net().count() {
            self.add_pairs_from(&mut counts, Ws(a))?;
        }
        Ok(counts)
    }
}
