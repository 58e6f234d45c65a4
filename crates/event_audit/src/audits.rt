//! The audit, entry by entry and then start by start.
ghost use Rattle.std.specs.Prelude.{ℕ, ◌≡◌, ◌+◌, ◌<◌, ◌^◌, ◌↔◌, [], IfOk, IsNone, List, length};
ghost use Rattle.std.specs.Option.{IfSome};
ghost use Rattle.model.specs.Types.{Entry as Kept};
ghost use Rattle.model.specs.Sound.{IsSound};
ghost use Rattle.counted_facts.specs.Launches.{AreTold};
ghost use Rattle.event_audit.specs.Items.{AreRightBelow, AreStartsRightBelow, IsFirstWrong};
ghost use Rattle.event_audit.specs.Audits.{IsWrongEntryAt, IsWrongStartAt};

use crate::entries::is_right_entry;
use crate::findings::Audit;
use crate::starts::{StartedLaunches, is_right_start};
use base_types::{Entries, Entry, NoMemory, Start, Starts};
use counted_facts::{CountedFacts, ToldLaunches};
use network_tree::Network;
use owner_fold::Owners;
use std::alloc::Global;

/// Whether a history and its starts are sound, or else the first item that fails: entries are counted from 1, and
/// starts behind them. Any lists may be given, also with workstations outside the network. Where memory runs out
/// nothing is answered.
pub fn audit(alloc: Global, net: &Network, g: &Entries, starts: &Starts) -> Result<Audit, NoMemory>
    requires few { length g.now + length starts.now < 2 ^ 32 }
    ensures sound { IfOk result (λ found. (found ≡ Audit.Sound) ↔ IsSound net.now g.now starts.now) }
    ensures not { IfOk result (λ found. (n : ℕ) → found ≡ Audit.Not n
        → IsFirstWrong net.now g.now starts.now n) }
{
    let entries = g.as_slice();
    let mut launches = ToldLaunches::new(alloc);
    match first_wrong_entry(alloc, net, entries, &mut launches)? {
        Some(place) => Ok(Audit::Not(place as u32 + 1)),
        None => match first_wrong_start(alloc, &launches, starts.as_slice())? {
            Some(place) => Ok(Audit::Not(entries.len() as u32 + place as u32 + 1)),
            None => Ok(Audit::Sound),
        },
    }
}

/// Where the first entry stands that is not right, counted from 0. Where there is none, all launches are told.
fn first_wrong_entry(
    alloc: Global,
    net: &Network,
    entries: &[Entry],
    launches: &mut ToldLaunches,
) -> Result<Option<usize>, NoMemory>
    requires few { length entries.now < 2 ^ 32 }
    requires nothing { AreTold [] launches.old }
    ensures told { IfOk result (λ found. IsNone found → AreTold entries.now launches.new) }
    ensures none { IfOk result (λ found. IsNone found → AreRightBelow net.now entries.now (length entries.now)) }
    ensures some { IfOk result (λ found. IfSome found (IsWrongEntryAt net.now entries.now)) }
    ensures within { IfOk result (λ found. IfSome found (λ i. i < length entries.now)) }
{
    let mut owners = Owners::new(alloc);
    let mut facts = CountedFacts::new(alloc);
    for (i, entry) in entries.iter().enumerate() {
        if !is_right_entry(alloc, net, &owners, &facts, launches, entry)? {
            return Ok(Some(i));
        }
        launches.tell(entry)?;
        owners.take(entry)?;
        facts.tell(owners.kept(), entry)?;
    }
    Ok(None)
}

/// Where the first start stands that is not right, counted from 0.
fn first_wrong_start(
    alloc: Global,
    launches: &ToldLaunches,
    starts: &[Start],
) -> Result<Option<usize>, NoMemory>
    ensures none { IfOk result (λ found. (G : List Kept) → AreTold G launches.now → IsNone found
        → AreStartsRightBelow G starts.now (length starts.now)) }
    ensures some { IfOk result (λ found. (G : List Kept) → AreTold G launches.now
        → IfSome found (IsWrongStartAt G starts.now)) }
    ensures within { IfOk result (λ found. IfSome found (λ i. i < length starts.now)) }
{
    let mut started = StartedLaunches::new(alloc);
    for (i, start) in starts.iter().enumerate() {
        if !is_right_start(launches, &started, start) {
            return Ok(Some(i));
        }
        started.start(start)?;
    }
    Ok(None)
}
