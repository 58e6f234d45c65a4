//! Reading a history.
ghost use Rattle.std.specs.Prelude.{◌≡◌, ◌<◌, ◌+◌, ◌-◌, ◌^◌, ℕ, Err, IfOk, IsTrue, None, Ok, Some, length, map};
ghost use Rattle.std.specs.List.{list_all};
ghost use Rattle.model.specs.Fit.{AreFitEntries};
ghost use Rattle.network_tree.specs.Faults.{net_fault};
ghost use Rattle.history_script.specs.Histories as spec;
ghost use Rattle.history_script.specs.Rows.{row_of};
ghost use Rattle.history_script.specs.Taken.{lines_size};
ghost use Rattle.history_script.specs.declared.histories.HistoryFault.TheVariants.{At as Told};
ghost use Rattle.history_script.specs.declared.histories.HistoryKind as kinds;

use crate::found::read_rows;
use crate::fronts::{history_place, read_network};
use crate::histories::{HistoryFault, HistoryText};
use base_types::Net;
use std::alloc::Global;
use syntax::lines;

/// The lines behind `$HISTORY`, by its place.
fn behind<'a>(texts: &'a [&'a str], place: Option<usize>) -> &'a [&'a str]
    requires { (p : ℕ) → place ≡ Some p → p < length texts.now }
    ensures { map (λ x. x.now) result.now ≡ spec.lines_behind place (map (λ x. x.now) texts.now) }
{
    match place {
        Some(place) => &texts[place + 1..],
        None => &[],
    }
}

/// The line of the first of them.
fn line_behind(place: Option<usize>) -> usize
    requires { spec.line_behind place < 2 ^ 32 }
    ensures { result ≡ spec.line_behind place }
{
    match place {
        Some(place) => place + 2,
        None => 1,
    }
}

/// A history by its network and its lines, or the first fault of those behind `$HISTORY`.
fn read_behind(
    alloc: Global,
    net: Net,
    texts: &[&str],
    place: Option<usize>,
) -> Result<HistoryText, HistoryFault>
    requires accepted { net_fault net ≡ None }
    requires within { (p : ℕ) → place ≡ Some p → p < length texts.now }
    requires few { spec.line_behind place + length (spec.lines_behind place (map (λ x. x.now) texts.now)) < 2 ^ 32 }
    requires short { lines_size (spec.lines_behind place (map (λ x. x.now) texts.now)) < 2 ^ 32 }
    ensures read { IfOk result (λ h. spec.with_rows (spec.line_behind place)
        (map row_of (spec.lines_behind place (map (λ x. x.now) texts.now))) net ≡ Ok h) }
    ensures net { IfOk result (λ h. h.net ≡ net) }
    ensures fit { IfOk result (λ h. AreFitEntries h.entries) }
    ensures at { (n : ℕ) → (k : kinds.HistoryKind) → result ≡ Err (Told n k) → spec.with_rows (spec.line_behind place)
        (map row_of (spec.lines_behind place (map (λ x. x.now) texts.now))) net ≡ Err (n, k) }
{
    match read_rows(alloc, &net, line_behind(place), behind(texts, place)) {
        Ok(found) => Ok(found.with_net(net)),
        Err(fault) => Err(fault),
    }
}

/// The history that a text is, or its lowest faulty line with the first kind of its faults. The text has at most
/// 4,294,967,287 bytes.
///
/// The network is one that `Network::new` accepts. The entries are fit to be written. Entries and starts name workstations of it alone, and together they are
/// fewer than 2 ^ 32.
pub fn read_history(alloc: Global, text: &str) -> Result<HistoryText, HistoryFault>
    requires { length text.now < 2 ^ 32 - 8 }
    ensures read { IfOk result (λ h. spec.read_of text.now ≡ Ok h) }
    ensures accepted { IfOk result (λ h. net_fault h.net ≡ None) }
    ensures fit { IfOk result (λ h. AreFitEntries h.entries) }
    ensures inside { IfOk result (λ h. IsTrue (list_all (spec.is_inside h.net) h.entries)) }
    ensures starts { IfOk result (λ h. IsTrue (list_all (spec.is_start_inside h.net) h.starts)) }
    ensures few { IfOk result (λ h. length h.entries + length h.starts < 2 ^ 32) }
    ensures at { (n : ℕ) → (k : kinds.HistoryKind) → result ≡ Err (Told n k) → spec.read_of text.now ≡ Err (n, k) }
{
    let texts = lines(alloc, text)?;
    let place = history_place(&texts);
    match read_network(alloc, &texts, place) {
        Ok(net) => read_behind(alloc, net, &texts, place),
        Err(fault) => Err(fault),
    }
}
