//! What is sent to a neighbour: up to eight places that it has not acknowledged.
ghost use Rattle.std.specs.Prelude.{◌≡◌, ◌≤◌, ◌<◌, ◌+◌, ◌-◌, ◌++◌, ◌∷◌, [], ℕ, IsTrue, false, flat_map, length, map, nat_lt, slice_get, take};
ghost use Rattle.std.specs.List.{list_all};
ghost use Rattle.model.specs.Types as types;
ghost use Rattle.model.specs.Words.{below, numbers_from};
ghost use Rattle.model.specs.Network.{node_count};
ghost use Rattle.model.specs.History.{View, view_of};
ghost use Rattle.model.specs.Workstations.{ws_in_feed};
ghost use Rattle.model.specs.Forwarding as spec;
ghost use Rattle.mailman_core.specs.Listed.{IsListed};
ghost use Rattle.mailman_core.specs.Mails.{acked_by};
ghost use Rattle.mailman_core.specs.Sends.{sent, unsent};

use crate::mails::Mail;
use arrayvec::ArrayVec;
use base_types::{Feed, Growing, Out, Packet, Ws};
use mailman_routes::{are_plainly_unwanted, forwards, passes_own_alone};
use network_tree::Network;
use owner_fold::Owners;
use std::marker::Model;

/// An entry by its feed and place. A contract sees it as the pair of these.
#[derive(Clone, Copy)]
pub(crate) struct Place {
    pub(crate) feed: Feed,
    pub(crate) place: u32,
}

impl Model for Place {
    ghost use Rattle.std.specs.Prelude.{ℕ, ◌<◌, ◌^◌};
    ghost use Rattle.model.specs.Types.{Feed as Held};

    ghost Value = { Held × ℕ };

    ghost view = { λ a. (a.feed, a.place) };

    ghost inverse = { λ p. record { feed = p.0; place = p.1 } };

    ghost invariant = { λ a. a.place < 2 ^ 32 };
}

impl Default for Place {
    fn default() -> Place {
        Place {
            feed: Feed::Events(Ws(0)),
            place: 0,
        }
    }
}

/// Up to eight entries.
pub(crate) type Batch = ArrayVec<Place, 8>;

/// Whether there are eight.
fn is_full(batch: &Batch) -> bool
    ensures eight { IsTrue result → length batch.now.items ≡ 8 }
    ensures fewer { result ≡ false → length batch.now.items < 8 }
{
    batch.is_full()
}

/// Adds the places of a feed behind `acked` up to `held`, as far as eight go.
fn add_places(batch: &mut Batch, feed: &Feed, acked: u32, held: u32)
    requires order { acked ≤ held }
    requires few { length batch.old.items ≤ 8 }
    ensures { batch.new.items
        ≡ take 8 (batch.old.items ++ map (λ p. (feed.now, p)) (numbers_from (1 + acked) (held - acked))) }
{
    for behind in acked..held {
        if is_full(batch) {
            return;
        }
        batch.push(Place {
            feed: *feed,
            place: behind + 1,
        });
    }
}

/// Puts the sends of these entries to a workstation at the end of a list with room for eight.
fn put_places(batch: &Batch, to: Ws, outs: &mut Growing<Out>)
    requires few { length batch.now.items ≤ 8 }
    requires room { 8 ≤ outs.old.spare }
    ensures outs { outs.new.items ≡ outs.old.items ++ map (sent to) batch.now.items }
    ensures room { outs.old.spare ≤ outs.new.spare + 8 }
{
    for found in batch.as_slice() {
        outs.put(Out::Send(to, Packet::Mail(found.feed, found.place)));
    }
}

/// Whether orders to t go another way. That is one look into the table of ways.
#[tactic(auto, unfolding(model::specs::Forwarding::forwards))]
fn are_orders_elsewhere(net: &Network, me: Ws, to: Ws, t: Ws) -> bool
    requires from { me < node_count net.now }
    requires inside { t < node_count net.now }
    ensures { IsTrue result → (V : View) (a : ℕ) → spec.forwards net.now V me to (types.Orders a t) ≡ false }
{
    t.0 == me.0 || net.towards(me, t) != Some(to)
}

/// Whether a few look-ups tell that a feed is not passed on to `to`.
fn goes_elsewhere(net: &Network, o: &Owners, me: Ws, to: Ws, feed: &Feed) -> bool
    requires from { me < node_count net.now }
    requires to { to < node_count net.now }
    requires inside { IsTrue (list_all (λ w. nat_lt w (node_count net.now)) (ws_in_feed feed.now)) }
    ensures { IsTrue result → spec.forwards net.now (view_of o.now) me to feed.now ≡ false }
{
    match feed {
        Feed::Events(x) => are_plainly_unwanted(net, o, me, to, *x),
        Feed::Orders(_, t) => are_orders_elsewhere(net, me, to, *t),
    }
}

impl Mail {
    /// Adds what is to be sent of one feed.
    #[tactic(auto, unfolding(model::specs::Forwarding::places_beyond))]
    fn add_feed(&self, net: &Network, o: &Owners, me: Ws, to: Ws, feed: &Feed, batch: &mut Batch)
        requires from { me < node_count net.now }
        requires to { to < node_count net.now }
        requires inside { IsTrue (list_all (λ w. nat_lt w (node_count net.now)) (ws_in_feed feed.now)) }
        requires few { length batch.old.items ≤ 8 }
        ensures { batch.new.items ≡ take 8 (batch.old.items
            ++ unsent net.now (view_of o.now) me to (acked_by self.now to) (feed.now ∷ [])) }
    {
        if goes_elsewhere(net, o, me, to, feed) {
            return;
        }
        let held = o.count(*feed);
        if held == 0 {
            return;
        }
        let acked = self.acked_count(to, feed);
        if held <= acked {
            return;
        }
        if !forwards(net, o, me, to, feed) {
            return;
        }
        add_places(batch, feed, acked, held);
    }

    /// Adds what is to be sent of the feeds of events, each of which is looked at.
    fn add_each_events(&self, net: &Network, o: &Owners, me: Ws, to: Ws, batch: &mut Batch)
        requires from { me < node_count net.now }
        requires to { to < node_count net.now }
        requires few { length batch.old.items ≤ 8 }
        ensures { batch.new.items ≡ take 8 (batch.old.items
            ++ unsent net.now (view_of o.now) me to (acked_by self.now to)
            (map types.Events (below (node_count net.now)))) }
    {
        for w in 0..net.count() {
            if is_full(batch) {
                return;
            }
            let feed = Feed::Events(Ws(w));
            self.add_feed(net, o, me, to, &feed, batch);
        }
    }

    /// Adds what is to be sent of the feeds of events. One that manages no domain looks at its own alone.
    fn add_events(&self, net: &Network, o: &Owners, me: Ws, to: Ws, batch: &mut Batch)
        requires from { me < node_count net.now }
        requires to { to < node_count net.now }
        requires few { length batch.old.items ≤ 8 }
        ensures { batch.new.items ≡ take 8 (batch.old.items
            ++ unsent net.now (view_of o.now) me to (acked_by self.now to)
            (map types.Events (below (node_count net.now)))) }
    {
        if passes_own_alone(net, me) {
            self.add_feed(net, o, me, to, &Feed::Events(me), batch);
        } else {
            self.add_each_events(net, o, me, to, batch);
        }
    }

    /// Adds what is to be sent of the feeds of events, of which those of these workstations alone are looked at.
    fn add_listed_events(
        &self,
        net: &Network,
        o: &Owners,
        me: Ws,
        to: Ws,
        listed: &[Ws],
        batch: &mut Batch,
    )
        requires from { me < node_count net.now }
        requires to { to < node_count net.now }
        requires listed { IsListed net.now (view_of o.now) me to listed.now }
        requires few { length batch.old.items ≤ 8 }
        ensures { batch.new.items ≡ take 8 (batch.old.items
            ++ unsent net.now (view_of o.now) me to (acked_by self.now to)
            (map types.Events (below (node_count net.now)))) }
    {
        for w in listed {
            if is_full(batch) {
                return;
            }
            let feed = Feed::Events(*w);
            self.add_feed(net, o, me, to, &feed, batch);
        }
    }

    /// Adds what is to be sent of the orders of one issuer, whose feeds are not looked at where none is held.
    fn add_orders_of(&self, net: &Network, o: &Owners, me: Ws, to: Ws, a: Ws, batch: &mut Batch)
        requires from { me < node_count net.now }
        requires to { to < node_count net.now }
        requires issuer { a < node_count net.now }
        requires few { length batch.old.items ≤ 8 }
        ensures { batch.new.items ≡ take 8 (batch.old.items
            ++ unsent net.now (view_of o.now) me to (acked_by self.now to)
            (map (types.Orders a) (below (node_count net.now)))) }
    {
        if !o.has_issued(a) {
            return;
        }
        for w in 0..net.count() {
            if is_full(batch) {
                return;
            }
            let feed = Feed::Orders(a, Ws(w));
            self.add_feed(net, o, me, to, &feed, batch);
        }
    }

    /// Adds what is to be sent of the feeds of orders, which are not looked at where no order is held.
    fn add_orders(&self, net: &Network, o: &Owners, me: Ws, to: Ws, batch: &mut Batch)
        requires from { me < node_count net.now }
        requires to { to < node_count net.now }
        requires few { length batch.old.items ≤ 8 }
        ensures { let ws = below (node_count net.now) in batch.new.items ≡ take 8 (batch.old.items
            ++ unsent net.now (view_of o.now) me to (acked_by self.now to)
            (flat_map (λ a. map (types.Orders a) ws) ws)) }
    {
        if !o.has_orders() {
            return;
        }
        for a in 0..net.count() {
            if is_full(batch) {
                return;
            }
            self.add_orders_of(net, o, me, to, Ws(a), batch);
        }
    }

    /// The first eight entries that `to` has not acknowledged, by one walk and without memory.
    #[tactic(auto, using(crate::proofs::Unsent::all_feeds))]
    pub(crate) fn batch(&self, net: &Network, o: &Owners, me: Ws, to: Ws) -> Batch
        requires from { me < node_count net.now }
        requires to { to < node_count net.now }
        ensures { result.items ≡ spec.to_send net.now (view_of o.now) me to (acked_by self.now to) }
    {
        let mut batch = ArrayVec::new();
        self.add_events(net, o, me, to, &mut batch);
        self.add_orders(net, o, me, to, &mut batch);
        batch
    }

    /// The first eight entries that `to` has not acknowledged, of whose feeds of events those of these workstations alone
    /// are looked at.
    #[tactic(auto, using(crate::proofs::Unsent::all_feeds))]
    fn listed_batch(&self, net: &Network, o: &Owners, me: Ws, to: Ws, listed: &[Ws]) -> Batch
        requires from { me < node_count net.now }
        requires to { to < node_count net.now }
        requires listed { IsListed net.now (view_of o.now) me to listed.now }
        ensures { result.items ≡ spec.to_send net.now (view_of o.now) me to (acked_by self.now to) }
    {
        let mut batch = ArrayVec::new();
        self.add_listed_events(net, o, me, to, listed, &mut batch);
        self.add_orders(net, o, me, to, &mut batch);
        batch
    }

    /// The feed and place of the i-th entry, counted from 0, that is to be sent to `to`: of the feeds that `me` passes
    /// on to it the first eight that it has not acknowledged, events before orders, feeds and places ascending. None
    /// where there are at most i. It takes no memory.
    pub fn to_send(&self, net: &Network, o: &Owners, me: Ws, to: Ws, i: u8) -> Option<(Feed, u32)>
        requires from { me < node_count net.now }
        requires to { to < node_count net.now }
        ensures { result ≡ slice_get (spec.to_send net.now (view_of o.now) me to (acked_by self.now to)) i }
    {
        let batch = self.batch(net, o, me, to);
        match batch.as_slice().get(usize::from(i)) {
            Some(found) => Some((found.feed, found.place)),
            None => None,
        }
    }

    /// Puts all that is to be sent to `to` at the end of a list with room for eight, by one walk.
    pub fn put_sends(&self, net: &Network, o: &Owners, me: Ws, to: Ws, outs: &mut Growing<Out>)
        requires from { me < node_count net.now }
        requires to { to < node_count net.now }
        requires room { 8 ≤ outs.old.spare }
        ensures outs { outs.new.items ≡ outs.old.items ++ map (sent to)
            (spec.to_send net.now (view_of o.now) me to (acked_by self.now to)) }
        ensures room { outs.old.spare ≤ outs.new.spare + 8 }
    {
        let batch = self.batch(net, o, me, to);
        put_places(&batch, to, outs);
    }

    /// Puts all that is to be sent to `to` at the end of a list with room for eight, by a walk over the feeds that were
    /// listed for it.
    pub fn put_listed_sends(
        &self,
        net: &Network,
        o: &Owners,
        me: Ws,
        to: Ws,
        listed: &[Ws],
        outs: &mut Growing<Out>,
    )
        requires from { me < node_count net.now }
        requires to { to < node_count net.now }
        requires listed { IsListed net.now (view_of o.now) me to listed.now }
        requires room { 8 ≤ outs.old.spare }
        ensures outs { outs.new.items ≡ outs.old.items ++ map (sent to)
            (spec.to_send net.now (view_of o.now) me to (acked_by self.now to)) }
        ensures room { outs.old.spare ≤ outs.new.spare + 8 }
    {
        let batch = self.listed_batch(net, o, me, to, listed);
        put_places(&batch, to, outs);
    }
}
