//! The bytes of Symphony.
ghost use Rattle.std.specs.Prelude.{IfOk, OnOk};
ghost use Rattle.model.specs.Fit.{AreFitEntries, IsFit};

use crate::asked::Asked;
use crate::entries::entry;
use crate::nights::Night;
use crate::outs::Out;
use agent_core::Agent;
use base_types::{Bytes, Copied, Entry, Items, NoMemory, Ws};
use network_tree::Network;
use owner_fold::Owners;
use symphony_view::symphony;

/// Takes an entry, where it is the next of its feed.
#[tactic(auto, using(symphony_view::proofs::FitStreams::one_more_fit))]
fn keep(owners: &mut Owners, entry: &Entry) -> Result<(), NoMemory>
    requires held { AreFitEntries owners.old }
    requires next { IsFit entry.now }
    ensures { OnOk result (AreFitEntries owners.new) }
{
    if entry.place > 0 && owners.count(entry.feed) == entry.place - 1 {
        owners.take(entry)?;
    }
    Ok(())
}

/// Takes the entry of a word of digits, where it is the next of its feed.
fn take(out: &mut Out, owners: &mut Owners, word: &str) -> Result<(), NoMemory>
    requires { AreFitEntries owners.old }
    ensures { OnOk result (AreFitEntries owners.new) }
{
    match entry(out, word) {
        Some(entry) => keep(owners, &entry),
        None => Ok(()),
    }
}

/// What is held of the entries of words of digits.
fn held(out: &mut Out, text: &str) -> Result<Owners, NoMemory>
    ensures { IfOk result AreFitEntries }
{
    let mut owners = Owners::new(out.alloc);
    for word in text.split(' ') {
        take(out, &mut owners, word)?;
    }
    Ok(owners)
}

fn shown(out: &mut Out, net: &Network, text: &str) -> Result<Bytes, NoMemory> {
    match held(out, text) {
        Ok(owners) => symphony(out.alloc, net, &owners),
        Err(NoMemory) => Err(NoMemory),
    }
}

/// The Symphony of a node that holds nothing. None where there is no node.
fn shown_of_none(out: &mut Out, net: Network) -> Option<Bytes> {
    let kept = Items::new(out.alloc);
    match Agent::restore(out.alloc, net, Ws(0), &kept) {
        Ok(agent) => out.kept(agent.symphony()),
        Err(_) => None,
    }
}

/// Writes bytes that were made, and tells whether they were.
fn put_made(out: &mut Out, made: Option<Bytes>) -> bool {
    match made {
        Some(bytes) => {
            for byte in bytes.as_slice() {
                out.hex(*byte);
            }
            true
        }
        None => false,
    }
}

fn put_of_none(night: &Night, out: &mut Out) -> bool {
    match out.kept(night.net.copy()) {
        Some(net) => {
            let made = shown_of_none(out, net);
            put_made(out, made)
        }
        None => false,
    }
}

fn put_of_entries(night: &Night, out: &mut Out, text: &str) -> bool {
    let made = shown(out, &night.net, text);
    let made = out.kept(made);
    put_made(out, made)
}

/// Writes the Symphony that is asked for, and tells whether one is.
pub fn ask_symphony(night: &Night, out: &mut Out, asked: &Asked) -> bool {
    if asked.is("node-symphony", 0) {
        put_of_none(night, out)
    } else if asked.is_with_text("symphony", 0) {
        put_of_entries(night, out, asked.text)
    } else {
        false
    }
}
