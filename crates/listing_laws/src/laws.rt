//! What holds of all listings.
ghost use Rattle.std.specs.Prelude.{◌≡◌, IsUtf8, List, None, Ok};
ghost use Rattle.model.specs.Types.{Net as Network, StreamDraft};
ghost use Rattle.network_tree.specs.Faults.{net_fault};
ghost use Rattle.plan_listing.specs.Listings.{listing_of};
ghost use Rattle.record_script.specs.Scripts.{read_of};
ghost use Rattle.history_laws.specs.Printables.{IsPrintable};
ghost use Rattle.listing_laws.specs.Listables.{AreListable};
ghost use Rattle.listing_laws.specs.ListingReturns.{script_of_listing, with_next};

/// The listing of drafts, with `$STEPS` and `next` behind it, is read as a record of their network, but for FULLSTATUS of
/// managers, whose one plan they are and whose one step takes it. That text is UTF-8.
pub fn printed_listings_are_read_back()
    ensures text { (net : Network) → (drafts : List StreamDraft) → IsPrintable net → net_fault net ≡ None
        → AreListable net drafts → IsUtf8 (with_next (listing_of net drafts)) }
    ensures read { (net : Network) → (drafts : List StreamDraft) → IsPrintable net → net_fault net ≡ None
        → AreListable net drafts
        → read_of (with_next (listing_of net drafts)) ≡ Ok (script_of_listing net drafts) }
{}
