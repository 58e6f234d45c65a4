//! Streams and jobs by their names.
ghost use Rattle.std.specs.Prelude.{◌≡◌, find, reverse, filter_map};
ghost use Rattle.std.specs.Option.{option_copied};
ghost use Rattle.model.specs.Equalities.{text_eq};
ghost use Rattle.model.specs.History.{view_of};
ghost use Rattle.model.specs.Catalogue.{members, stream};
ghost use Rattle.event_audit.specs.Meanings as spec;

use base_types::{StreamDoc, StreamNo, Text, Ws};
use owner_fold::Owners;

/// Whether the two texts are one.
#[tactic(auto, using(model_laws::proofs::Texts::text_bytes))]
pub(crate) fn is_text(a: &Text, b: &Text) -> bool
    ensures { result ≡ text_eq a.now b.now }
{
    a.as_str() == b.as_str()
}

/// Whether a stream has this workstation and name.
fn is_called(doc: &StreamDoc, ws: Ws, name: &Text) -> bool
    ensures { result ≡ spec.is_called ws name.now doc.now }
{
    doc.ws.0 == ws.0 && is_text(&doc.name, name)
}

/// The first of these documents with this workstation and name.
pub(crate) fn first_called<'a>(docs: &'a [StreamDoc], ws: Ws, name: &Text) -> Option<&'a StreamDoc>
    ensures { option_copied result ≡ find (spec.is_called ws name.now) docs.now }
{
    for doc in docs {
        if is_called(doc, ws, name) {
            return Some(doc);
        }
    }
    None
}

/// The last of these streams of the catalogue with this workstation and name.
pub(crate) fn last_called<'a>(
    owners: &'a Owners,
    numbers: &[StreamNo],
    ws: Ws,
    name: &Text,
) -> Option<&'a StreamDoc>
    ensures { option_copied result ≡
        find (spec.is_called ws name.now) (reverse (filter_map (stream (view_of owners.now)) numbers.now)) }
{
    let mut last = None;
    for number in numbers {
        match owners.stream(*number) {
            None => {}
            Some(doc) => {
                if is_called(doc, ws, name) {
                    last = Some(doc);
                }
            }
        }
    }
    last
}

/// The last member of the plan with this workstation and name.
pub(crate) fn last_member<'a>(owners: &'a Owners, ws: Ws, name: &Text) -> Option<&'a StreamDoc>
    ensures { let V = view_of owners.now in option_copied result ≡
        find (spec.is_called ws name.now) (reverse (filter_map (stream V) (members V))) }
{
    last_called(owners, owners.members().as_slice(), ws, name)
}
