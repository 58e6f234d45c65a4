//! What a report of a world is made of.
ghost use Rattle.std.specs.Prelude.{◌≡◌, ◌<◌, IfOk, map, true};
ghost use Rattle.model.specs.Words.{below};
ghost use Rattle.model.specs.Network.{node_count};
ghost use Rattle.model.specs.World as model;
ghost use Rattle.model.specs.World.{view_at};
ghost use Rattle.symphony_view.specs.Listings.{listing_of};
ghost use Rattle.network_world.specs.Parts.{HoldAsMany, node_part, parts_of};
ghost use Rattle.network_world.specs.Standing.{StandsFor};

use crate::copies::{copied_bytes, copied_entries, copied_starts};
use crate::holds::{held, hold_equally};
use crate::laws::{equal_counts_show_equal_listings, packets_have_entries};
use crate::worlds::World;
use base_types::{Bytes, Items, NoMemory, NodePart, NodeParts, ReportParts, Ws};

impl World {
    /// Whether two workstations hold as many events of each workstation.
    fn hold_as_many(&self, a: Ws, b: Ws) -> bool
        requires first { a < node_count self.now.net }
        requires second { b < node_count self.now.net }
        ensures { result ≡ true → (x : model.World) → StandsFor self.now x → HoldAsMany self.now.net x a b }
    {
        packets_have_entries();
        let one = self.node(a);
        let other = self.node(b);
        for w in 0..self.net().count() {
            if !hold_equally(one, other, Ws(w)) {
                return false;
            }
        }
        true
    }

    /// The listing of a workstation as its own node makes it.
    fn own_listing(&self, w: Ws) -> Result<Bytes, NoMemory>
        requires { w < node_count self.now.net }
        ensures { IfOk result (λ l. (x : model.World) → StandsFor self.now x
            → l ≡ listing_of self.now.net (view_at x w)) }
    {
        let node = self.node(w);
        let listing = node.listing()?;
        Ok(listing)
    }

    /// The listing of a workstation, which is that of another one, where both hold the same events.
    fn copied_listing(&self, from: Ws, w: Ws, listing: &Bytes) -> Result<Bytes, NoMemory>
        requires from { from < node_count self.now.net }
        requires to { w < node_count self.now.net }
        requires listing { (x : model.World) → StandsFor self.now x
            → listing.now ≡ listing_of self.now.net (view_at x from) }
        ensures { IfOk result (λ l. (x : model.World) → StandsFor self.now x
            → l ≡ listing_of self.now.net (view_at x w)) }
    {
        equal_counts_show_equal_listings();
        if !self.hold_as_many(from, w) {
            return self.own_listing(w);
        }
        let copied = copied_bytes(self.alloc, listing.as_slice())?;
        Ok(copied)
    }

    /// The listing of a workstation, behind the parts of those before it. Where it holds the same events as the last of
    /// these, it has the listing of that one.
    fn listing_behind(&self, w: Ws, last: Ws, before: &NodeParts) -> Result<Bytes, NoMemory>
        requires inside { w < node_count self.now.net }
        requires last { last < node_count self.now.net }
        requires before { (x : model.World) → StandsFor self.now x
            → before.now ≡ map (node_part self.now.net x) (below w) }
        ensures { IfOk result (λ l. (x : model.World) → StandsFor self.now x
            → l ≡ listing_of self.now.net (view_at x w)) }
    {
        match before.get(usize::from(last.0)) {
            None => self.own_listing(w),
            Some(part) => self.copied_listing(last, w, &part.listing),
        }
    }

    /// What a report says of one workstation, behind the parts of those before it.
    fn node_part(&self, w: Ws, last: Ws, before: &NodeParts) -> Result<NodePart, NoMemory>
        requires inside { w < node_count self.now.net }
        requires last { last < node_count self.now.net }
        requires before { (x : model.World) → StandsFor self.now x
            → before.now ≡ map (node_part self.now.net x) (below w) }
        ensures { IfOk result (λ part. (x : model.World) → StandsFor self.now x
            → part ≡ node_part self.now.net x w) }
    {
        packets_have_entries();
        let node = self.node(w);
        let holds = held(self.alloc, node)?;
        let listing = self.listing_behind(w, last, before)?;
        Ok(NodePart {
            ws: w,
            holds,
            listing,
        })
    }

    /// What a report says of each workstation.
    fn node_parts(&self) -> Result<NodeParts, NoMemory>
        ensures { IfOk result (λ parts. (x : model.World) → StandsFor self.now x
            → parts ≡ map (node_part self.now.net x) (below (node_count self.now.net))) }
    {
        let mut parts = Items::new(self.alloc);
        let mut last = 0;
        for w in 0..self.net().count() {
            let part = self.node_part(Ws(w), Ws(last), &parts)?;
            parts.push(part)?;
            last = w;
        }
        Ok(parts)
    }

    /// What a report is made of: the entries and the starts in order; how many packets went from each workstation to
    /// each other, where there are any, in ascending order; and for each workstation how many entries of each feed it
    /// holds, where there are any, events before orders and each in ascending order, with the listing of its plan.
    /// `NoMemory` where memory runs out.
    pub fn parts(&self) -> Result<ReportParts, NoMemory>
        ensures { IfOk result (λ parts. (x : model.World) → StandsFor self.now x → parts ≡ parts_of self.now.net x) }
    {
        let starts = copied_starts(self.alloc, self.starts())?;
        let packets = self.pair_counts()?;
        let nodes = self.node_parts()?;
        let events = copied_entries(self.alloc, self.history())?;
        Ok(ReportParts {
            events,
            starts,
            packets,
            nodes,
        })
    }
}
