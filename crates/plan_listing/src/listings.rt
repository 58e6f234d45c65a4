//! The listing of a network and drafts.
ghost use Rattle.std.specs.Prelude.{◌≡◌, ◌++◌, IfOk, OnOk, codes};
ghost use Rattle.plan_listing.specs.Listings as spec;
ghost use Rattle.plan_listing.specs.Networks.{network_text};

use crate::networks::write_network;
use crate::streams::put_streams;
use base_types::{Bytes, Items, Net, NoMemory, StreamDrafts};
use std::alloc::Global;
use std::io::{self, Write};

/// The network and the drafts as the text of a record, up to the plan: what differs from the defaults is printed.
///
/// A workstation, resource or prompt that the network lacks has no name, and nothing stands in its place. A dependency on
/// a stream or a job by its number has no line. `NoMemory` where memory runs out.
#[tactic(auto, unfolding(crate::specs::Listings::listing_of))]
pub fn listing_of(alloc: Global, net: &Net, drafts: &StreamDrafts) -> Result<Bytes, NoMemory>
    ensures { IfOk result (λ bytes. bytes ≡ spec.listing_of net.now drafts.now) }
{
    let mut out = Vec::new(alloc);
    match write_head(&mut out, net) {
        Ok(()) => {
            put_streams(alloc, &mut out, net, drafts.as_slice())?;
            Ok(Items::of_vec(out))
        }
        Err(_) => Err(NoMemory),
    }
}

/// Writes the network, and the line before the streams.
fn write_head(out: &mut Vec<u8>, net: &Net) -> io::Result<()>
    ensures { OnOk result (out.new.items ≡ out.old.items ++ network_text net.now ++ codes "$PLAN\n") }
{
    write_network(out, net)?;
    write!(out, "$PLAN\n")
}
