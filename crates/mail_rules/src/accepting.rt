//! Which mail is taken, and what goes back for it.
ghost use Rattle.std.specs.Prelude.{◌≡◌, length};
ghost use Rattle.model.specs.History as history;
ghost use Rattle.model.specs.History.{view_of};
ghost use Rattle.model.specs.NewEntry as spec;
ghost use Rattle.model.specs.Types as types;

use base_types::{Entry, Feed, Packet, Ws};
use owner_fold::Owners;

/// Who makes the entries of a feed.
fn maker(feed: &Feed) -> Ws
    ensures { result ≡ history.maker feed.now }
{
    match feed {
        Feed::Events(w) => *w,
        Feed::Orders(a, _) => *a,
    }
}

/// Whether an entry that came by mail is kept at `me`: it is the next of its feed, and not of this node's making.
#[tactic(auto, unfolding(model::specs::NewEntry::accepts))]
pub fn accepts(o: &Owners, me: Ws, e: &Entry) -> bool
    ensures { result ≡ spec.accepts me (view_of o.now) e.now }
{
    let held = u64::from(o.count(e.feed));
    u64::from(e.place) == held + 1 && maker(&e.feed).0 != me.0
}

/// What goes back for mail over a link that is up: how many entries of its feed are held, whatever place came.
pub fn acknowledgement(o: &Owners, e: &Entry) -> Packet
    ensures { result ≡ types.Ack e.now.feed (length (view_of o.now e.now.feed)) }
{
    Packet::Ack(e.feed, o.count(e.feed))
}
