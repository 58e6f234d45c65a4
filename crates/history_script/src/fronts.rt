//! The lines of the network.
ghost use Rattle.std.specs.Prelude.{◌≡◌, ◌<◌, ◌++◌, ◌∷◌, ◌^◌, [], ℕ, Err, IfOk, None, Ok, OnOk, Some, flat_map, length, map};
ghost use Rattle.std.specs.List.{position};
ghost use Rattle.std.specs.String.{string_bytes};
ghost use Rattle.network_tree.specs.Faults.{net_fault};
ghost use Rattle.record_script.specs.Scripts.{read_of};
ghost use Rattle.history_script.specs.Fronts as spec;
ghost use Rattle.history_script.specs.declared.histories.HistoryFault.TheVariants.{At as Told};
ghost use Rattle.history_script.specs.declared.histories.HistoryKind as kinds;

use crate::histories::{HistoryFault, HistoryKind};
use base_types::{Net, NoMemory};
use record_script::{Script, ScriptFault, read_script};
use std::alloc::Global;

fn is_history(line: &str) -> bool
    ensures { result ≡ spec.is_history line.now }
{
    line == "$HISTORY"
}

/// The place of the first line that is `$HISTORY`.
fn place_among(texts: &[&str]) -> Option<usize>
    ensures place { result ≡ position (λ x. spec.is_history x.now) texts.now }
    ensures within { (p : ℕ) → result ≡ Some p → p < length texts.now }
{
    texts.iter().position(|line| is_history(line))
}

/// The place of the first line that is `$HISTORY`, from 0.
pub(crate) fn history_place(texts: &[&str]) -> Option<usize>
    ensures place { result ≡ spec.history_place (map (λ x. x.now) texts.now) }
    ensures within { (p : ℕ) → result ≡ Some p → p < length texts.now }
{
    place_among(texts)
}

/// A header that stands in records, and not in histories.
fn is_foreign(line: &str) -> bool
    ensures { result ≡ spec.is_foreign line.now }
{
    line == "$DEFINITIONS" || line == "$PLAN" || line == "$STEPS"
}

/// The line in the record that has the same network.
fn as_in_record(line: &str) -> &str
    ensures { result.now ≡ spec.as_in_record line.now }
{
    if is_foreign(line) { "$" } else { line }
}

/// Puts a line with its line feed behind others.
fn put_line(made: &mut String, line: &str) -> Result<(), NoMemory>
    ensures { OnOk result (string_bytes made.new ≡ string_bytes made.old ++ (line.now ++ 10 ∷ [])) }
{
    made.push_str(line)?;
    made.push('\n')?;
    Ok(())
}

/// The lines of the record that has the same network.
fn record_lines(alloc: Global, texts: &[&str]) -> Result<String, NoMemory>
    ensures { IfOk result (λ s. string_bytes s ≡ flat_map spec.record_line (map (λ x. x.now) texts.now)) }
{
    let mut made = String::new(alloc);
    for line in texts {
        put_line(&mut made, as_in_record(line))?;
    }
    Ok(made)
}

/// The record that has the same network, by the place of `$HISTORY`.
#[tactic(auto, unfolding(crate::specs::Fronts::record_text))]
fn record_text(alloc: Global, texts: &[&str], place: Option<usize>) -> Result<String, NoMemory>
    requires { (p : ℕ) → place ≡ Some p → p < length texts.now }
    ensures { IfOk result (λ s. string_bytes s ≡ spec.record_text place (map (λ x. x.now) texts.now)) }
{
    let Some(place) = place else {
        return record_lines(alloc, texts);
    };
    let mut made = record_lines(alloc, &texts[..place])?;
    made.push_str("$STEPS\n")?;
    Ok(made)
}

/// The network of a record.
fn net_of(script: Script) -> Net
    ensures { result ≡ script.net }
{
    let (net, _plans, _steps) = script.into_parts();
    net
}

/// The network of a record by its text, or its first fault as one of a history. The network is one that `Network::new`
/// accepts.
fn net_in(alloc: Global, text: &str) -> Result<Net, HistoryFault>
    requires { length text.now < 2 ^ 32 }
    ensures net { IfOk result (λ net. spec.net_or_fault (read_of text.now) ≡ Ok net) }
    ensures accepted { IfOk result (λ net. net_fault net ≡ None) }
    ensures at { (n : ℕ) → (k : kinds.HistoryKind) → result ≡ Err (Told n k)
        → spec.net_or_fault (read_of text.now) ≡ Err (n, k) }
{
    match read_script(alloc, text) {
        Ok(script) => Ok(net_of(script)),
        Err(ScriptFault::At(line, kind)) => {
            Err(HistoryFault::At(line, HistoryKind::OfRecord(kind)))
        }
        Err(ScriptFault::NoMemory) => Err(HistoryFault::NoMemory),
    }
}

/// The network of a history by its lines and the place of `$HISTORY`, or their first fault. The network is one that
/// `Network::new` accepts.
#[tactic(auto, unfolding(crate::specs::Fronts::network_of))]
pub(crate) fn read_network(
    alloc: Global,
    texts: &[&str],
    place: Option<usize>,
) -> Result<Net, HistoryFault>
    requires within { (p : ℕ) → place ≡ Some p → p < length texts.now }
    requires few { length (spec.record_text place (map (λ x. x.now) texts.now)) < 2 ^ 32 }
    ensures net { IfOk result (λ net. spec.network_of place (map (λ x. x.now) texts.now) ≡ Ok net) }
    ensures accepted { IfOk result (λ net. net_fault net ≡ None) }
    ensures at { (n : ℕ) → (k : kinds.HistoryKind) → result ≡ Err (Told n k)
        → spec.network_of place (map (λ x. x.now) texts.now) ≡ Err (n, k) }
{
    let made = record_text(alloc, texts, place)?;
    net_in(alloc, made.as_str())
}
