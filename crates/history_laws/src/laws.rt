//! What holds of all histories.
ghost use Rattle.std.specs.Prelude.{◌≡◌, IsTrue, IsUtf8, List, None, Ok};
ghost use Rattle.std.specs.List.{list_all};
ghost use Rattle.model.specs.Sound.{IsSound};
ghost use Rattle.model.specs.Types.{Entry, Net as Network, Start, WorldStep};
ghost use Rattle.model.specs.World.{empty_world, run};
ghost use Rattle.network_tree.specs.Faults.{net_fault};
ghost use Rattle.history_script.specs.Histories.{is_inside, is_start_inside, read_of};
ghost use Rattle.history_script.specs.Printed.{history_text};
ghost use Rattle.history_laws.specs.Printables.{IsPrintable, IsToldWhole, as_printed};
ghost use Rattle.history_laws.specs.Returns.{AreTold};

/// The text of a history is UTF-8, and is read as the history that it is of, but for FULLSTATUS of managers. Where no
/// manager has it, nothing is lost.
pub fn printed_histories_are_read_back()
    ensures text { (net : Network) → (entries : List Entry) → (starts : List Start) → IsPrintable net
        → net_fault net ≡ None → AreTold net entries starts → IsUtf8 (history_text net entries starts) }
    ensures read { (net : Network) → (entries : List Entry) → (starts : List Start) → IsPrintable net
        → net_fault net ≡ None → AreTold net entries starts → read_of (history_text net entries starts)
        ≡ Ok (record { net = as_printed net; entries = entries; starts = starts }) }
    ensures whole { (net : Network) → (entries : List Entry) → (starts : List Start) → IsPrintable net
        → net_fault net ≡ None → AreTold net entries starts → IsToldWhole net
        → read_of (history_text net entries starts) ≡ Ok (record { net = net; entries = entries; starts = starts }) }
{}

/// Whatever steps the world takes, each entry of its history names workstations of the network alone, and so does each
/// start.
pub fn reached_worlds_stay_inside()
    ensures entries { (net : Network) → (steps : List WorldStep)
        → IsTrue (list_all (is_inside net) (run net steps empty_world).history) }
    ensures starts { (net : Network) → (steps : List WorldStep)
        → IsTrue (list_all (is_start_inside net) (run net steps empty_world).starts) }
{}

/// A history that is sound over a network is sound over what its lines say of it.
pub fn soundness_asks_nothing_of_full_status()
    ensures { (net : Network) → (entries : List Entry) → (starts : List Start) → IsSound net entries starts
        → IsSound (as_printed net) entries starts }
{}
