//! What holds of all networks.
ghost use Rattle.std.specs.Prelude.{◌≡◌, ℕ, List, None};
ghost use Rattle.model.specs.Types.{Net as Network};
ghost use Rattle.network_tree.specs.Faults.{net_fault};
ghost use Rattle.history_laws.specs.Printables.{IsPrintable, IsToldWhole, as_printed};
ghost use Rattle.history_laws.specs.NetworkReturns.{IsBegun, IsRecordOf};

/// The lines of a network are those of a record and of a history of that network, but for FULLSTATUS of managers. Where no
/// manager has it, nothing is lost.
pub fn printed_networks_are_read_back()
    ensures in_record { (net : Network) → IsPrintable net → net_fault net ≡ None → IsRecordOf net (as_printed net) }
    ensures in_history { (net : Network) → IsPrintable net → net_fault net ≡ None → (more : List (List ℕ)) →
        IsBegun net (as_printed net) more }
    ensures whole { (net : Network) → IsToldWhole net → as_printed net ≡ net }
{}
