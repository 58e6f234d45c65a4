//! Networks that come to rest, and networks that do not, by computation.
ghost use Rattle.std.specs.Prelude.{[], ◌∷◌, ◌≡◌, ◌<◌, ◌+◌, ℕ, IsTrue, drop, pos, true};
ghost use Rattle.model.specs.Types.{Ended, Events, Launched, Limit, Mail, Obeyed, Orders, Released, Started, StreamEnded};
ghost use Rattle.model.specs.Network.{IsTree};
ghost use Rattle.model.specs.History.{list_of};
ghost use Rattle.rest_laws.specs.AtRest.{pair, pair_apart, pair_begun, pair_later, pair_one_end, pair_round, pair_round_end};
ghost use Rattle.rest_laws.specs.Left.{caps_of, entries, left};
ghost use Rattle.rest_laws.specs.Rounds.{AreLinked, IsRound};
ghost use Rattle.rest_laws.specs.Rest.{HasDoneItsWork, IsAtRest, IsQuiet, count_of};
ghost use Rattle.rest_laws.specs.Short.{are_answers_short};
ghost use Rattle.rest_laws.specs.ToRest.{ComesToRest, names_inside};
ghost use Rattle.rest_laws.specs.Trio.{trio, trio_begun, trio_clocks, trio_later, trio_readings};

/// A network can come to rest: two workstations did, with an order given and answered. The first round of the pair
/// shows that there are rounds.
pub fn a_pair_comes_to_rest()
    ensures tree { IsTree pair }
    ensures rest { IsAtRest pair (λ w. 1) pair_later }
    ensures ordered { count_of pair_later (Orders 1 0) ≡ 1 }
    ensures answered { count_of pair_later (Events 0) ≡ 1 }
    ensures linked { AreLinked pair pair_begun }
    ensures round { IsRound pair (λ w. 1) pair_begun pair_round pair_round_end }
{}

/// Links matter. Where none is up all turns are quiet, and the order lies where it was given. Where one end alone is
/// up the order comes to the master, and is sent again by each turn for ever.
pub fn pairs_without_links_come_to_no_rest()
    ensures quiet_apart { (w : ℕ) → w < 2 → IsQuiet pair pair_apart w 1 }
    ensures order_apart { pair_apart.holdings 0 (Orders 1 0) < count_of pair_apart (Orders 1 0) }
    ensures held_one_end { pair_one_end.holdings 0 (Orders 1 0) ≡ 1 }
    ensures sent_one_end { pair_one_end.packets 1 0 ≡ Mail (Orders 1 0) 1 ∷ Mail (Orders 1 0) 1
        ∷ Mail (Orders 1 0) 1 ∷ [] }
    ensures known_one_end { (pair_one_end.sessions 1).acked 0 (Orders 1 0) ≡ 0 }
{}

/// All that is asked of a network so that it comes to rest can be met, with something left to do: three workstations, one
/// behind the other, a plan and an order, no link up yet, and clocks that go on after the first round. Where they have come
/// to later the agent has launched its job, its process has ended, and the order is answered.
pub fn three_workstations_come_to_rest()
    ensures tree { IsTree trio }
    ensures names { IsTrue (names_inside trio trio_begun) }
    ensures short { IsTrue (are_answers_short trio trio_begun) }
    ensures few { entries trio trio_begun + left trio (caps_of trio trio_begun) trio_readings trio_begun < 4294967295 }
    ensures comes { ComesToRest trio trio_readings trio_clocks trio_begun }
    ensures busy { IsAtRest trio (λ w. 1) trio_begun → ⊥ }
    ensures rest { IsAtRest trio (λ w. 1) trio_later }
    ensures work { HasDoneItsWork trio (λ w. 1) trio_later }
    ensures agent { list_of trio_later.history (Events 2) ≡ Released 1 ((0, 1) ∷ [])
        ∷ Launched 1 1 ((0, 1) ∷ (2, 1) ∷ []) ∷ Started 1 1 ∷ Ended 1 1 (pos 0) true
        ∷ StreamEnded 1 ((0, 1) ∷ (2, 4) ∷ []) ∷ [] }
    ensures master { drop 1 (list_of trio_later.history (Events 0)) ≡ Obeyed 2 1 (Limit 5) ∷ [] }
    ensures known { trio_later.holdings 0 (Events 2) ≡ 5 }
{}
