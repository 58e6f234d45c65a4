//! A round in which a process starts and ends, by computation.
ghost use Rattle.std.specs.Prelude.{[], ◌∷◌, ◌≡◌, ◌<◌, ◌+◌, ℕ, IsTrue, pos, true};
ghost use Rattle.model.specs.Types.{Ended, Events, Launched, Released, Started};
ghost use Rattle.model.specs.History.{list_of};
ghost use Rattle.model.specs.Network.{IsTree};
ghost use Rattle.rest_laws.specs.AtRest.{pair};
ghost use Rattle.rest_laws.specs.Gains.{gained};
ghost use Rattle.rest_laws.specs.Left.{caps_of, entries, left};
ghost use Rattle.rest_laws.specs.Rounds.{AreLinked};
ghost use Rattle.rest_laws.specs.Short.{are_answers_short};
ghost use Rattle.rest_laws.specs.ToRest.{ComesToRest};
ghost use Rattle.launches_at_rest.specs.Tells.{tells_left};
ghost use Rattle.launches_at_rest.specs.Rounds.{AreWorkingRounds};
ghost use Rattle.launches_at_rest.specs.Told.{IsWorkingRound};
ghost use Rattle.launches_at_rest.specs.Worked.{free_begun, free_ended, work_begun, work_clocks, work_ended, work_readings, work_round};

/// All that is asked of a round can be met while something happens in it: an agent launches its job, the process starts and
/// ends, and the master hears of the launch.
pub fn an_agent_works()
    ensures tree { IsTree pair }
    ensures linked { AreLinked pair work_begun }
    ensures round { IsWorkingRound pair (work_clocks 0) work_begun work_round work_ended }
    ensures rounds { AreWorkingRounds pair work_readings work_clocks 1 work_begun work_ended }
    ensures events { list_of work_ended.history (Events 1) ≡ Released 1 ((0, 1) ∷ []) ∷ Launched 1 1 ((0, 1) ∷ (1, 1) ∷ [])
        ∷ Started 1 1 ∷ Ended 1 1 (pos 0) true ∷ [] }
    ensures known { work_ended.holdings 0 (Events 1) ≡ 2 }
    ensures gains { gained pair work_begun < gained pair work_ended }
{}

/// What is asked of a world so that its network comes to rest again can be met too, with a launch, its start and its end to
/// come; and it does.
pub fn an_agent_comes_to_rest()
    ensures short { IsTrue (are_answers_short pair free_begun) }
    ensures few { entries pair free_begun
        + (left pair (caps_of pair free_begun) work_readings free_begun + tells_left pair (caps_of pair free_begun) free_begun)
        < 4294967295 }
    ensures told { list_of free_ended.history (Events 1) ≡ Released 1 ((0, 1) ∷ []) ∷ Launched 1 1 ((0, 1) ∷ (1, 1) ∷ [])
        ∷ Started 1 1 ∷ Ended 1 1 (pos 0) true ∷ [] }
    ensures comes { ComesToRest pair work_readings work_clocks free_ended }
{}
