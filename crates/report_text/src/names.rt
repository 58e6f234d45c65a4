//! Workstations and feeds by their names.
ghost use Rattle.std.specs.Prelude.{◌≡◌, ◌++◌, OnOk};
ghost use Rattle.report_text.specs.Names as spec;

use crate::words::write_words;
use base_types::{Feed, Net, Ws};
use std::io::{self, Write};

/// The name of the workstation, and the empty text for one that is not in the network.
#[tactic(auto, unfolding(crate::specs::Names::name_of))]
pub fn name<'a>(net: &'a Net, ws: &Ws) -> &'a str
    ensures { result.now ≡ spec.name_of net.now ws.now }
{
    match net.nodes.get(ws.0 as usize) {
        Some(node) => node.name.as_str(),
        None => "",
    }
}

/// Writes the workstation of events, or the two of orders.
#[tactic(auto, unfolding(crate::specs::Names::feed_text))]
pub(crate) fn write_feed(out: &mut Vec<u8>, net: &Net, feed: &Feed) -> io::Result<()>
    ensures { OnOk result (out.new.items ≡ out.old.items ++ spec.feed_text net.now feed.now) }
{
    match feed {
        Feed::Events(ws) => write_words(out, "", name(net, ws)),
        Feed::Orders(from, to) => write!(out, "{}>{}", name(net, from), name(net, to)),
    }
}
