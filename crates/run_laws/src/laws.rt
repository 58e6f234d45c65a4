//! The laws.
ghost use Rattle.std.specs.Prelude.{ℕ, [], ◌+◌, ◌++◌, ◌<◌, ◌≡◌, ◌≢◌, ◌∷◌, All, List, Ok, Option, Some, true};
ghost use Rattle.std.specs.Option.{option_to_list};
ghost use Rattle.base_types.specs.declared.LimitName.{LimitName};
ghost use Rattle.composer_parser.specs.declared.Defs.{Defs};
ghost use Rattle.model.specs.Types.{Cmd, Entry, Events, Launched, Obeyed, Obj, Order, Orders, Rerun};
ghost use Rattle.model.specs.History.{Seen};
ghost use Rattle.model.specs.Network.{node_count};
ghost use Rattle.model.specs.Facts.{launches, reruns};
ghost use Rattle.model.specs.Readiness.{is_ready};
ghost use Rattle.outside.specs.Calls.{Sent, StartCall};
ghost use Rattle.agent_core.specs.Nodes.{NodeState};
ghost use Rattle.recovery_watch.specs.Advice.{advice};
ghost use Rattle.node_inputs.specs.Keeping.{IsRefusal};
ghost use Rattle.node_inputs.specs.Traces.{Event, Trace, kept, refusals};
ghost use Rattle.node_inputs.specs.declared.ends.NodeEnd.{NodeEnd};
ghost use Rattle.node_inputs.specs.declared.ends.NodeEnd.TheVariants.{Limit};
ghost use Rattle.node_loop.specs.Runs.{Run, Running, running};
ghost use Rattle.run_laws.specs.Alone.{IsOwnOrder, is_alone};
ghost use Rattle.run_laws.specs.Files.{EndsWithItsProbe, FollowsFile, TellsFile};
ghost use Rattle.run_laws.specs.Held.{IsInHand, held_after};
ghost use Rattle.run_laws.specs.Launches.{launches_kept, launches_started};
ghost use Rattle.run_laws.specs.Limits.{IsMet};
ghost use Rattle.run_laws.specs.Outgoing.{IsItsWork, IsObeyedKill, TellsOfHeld};

/// A run starts exactly the launches that it kept among the node's own events, in order. When a job starts its launch is
/// the last of those that were kept so far, and all others of them were started. No launch is started twice.
pub fn launches_are_started_once()
    ensures started { (defs : Defs) (turns : ℕ) (node : NodeState) (trace : Trace) (end : Option NodeEnd) (new : Running)
        → Run defs turns (running node) trace end new
        → launches_started trace ≡ launches_kept node.me trace }
    ensures kept_first { (defs : Defs) (turns : ℕ) (node : NodeState) (trace : Trace) (end : Option NodeEnd) (new : Running)
        → Run defs turns (running node) trace end new
        → (front back : Trace) (call : StartCall) → trace ≡ front ++ Event.Starts call ∷ back
        → launches_kept node.me front ≡ launches_started front ++ (call.job, call.number) ∷ [] }
    ensures once { (defs : Defs) (turns : ℕ) (node : NodeState) (trace : Trace) (end : Option NodeEnd) (new : Running)
        → Run defs turns (running node) trace end new
        → (front back : List (ℕ × ℕ)) (launch : ℕ × ℕ) → launches_started trace ≡ front ++ launch ∷ back
        → All (λ other. other ≢ launch) back }
{}

/// At the end of a run the node is the same and holds what it held before and all that it kept, in order, and at most the
/// entry in hand besides.
pub fn nodes_hold_what_they_kept()
    ensures same { (defs : Defs) (turns : ℕ) (node : NodeState) (trace : Trace) (end : Option NodeEnd) (new : Running)
        → Run defs turns (running node) trace end new → (new.node.me ≡ node.me) × (new.node.net ≡ node.net) }
    ensures holds { (defs : Defs) (turns : ℕ) (node : NodeState) (trace : Trace) (end : Option NodeEnd) (new : Running)
        → Run defs turns (running node) trace end new
        → (in_hand : Option Entry) × (new.node.kept ≡ (node.kept ++ kept trace) ++ option_to_list in_hand)
        × ((e : Entry) → in_hand ≡ Some e → IsInHand trace end e) }
{}

/// Each launch that a run kept among the node's own events was ready in what the node held then, and has the next number
/// of its job.
pub fn launches_are_ready()
    ensures ready { (defs : Defs) (turns : ℕ) (node : NodeState) (trace : Trace) (end : Option NodeEnd) (new : Running)
        → Run defs turns (running node) trace end new
        → (front back : Trace) (e : Entry) (j n : ℕ) (seen : Seen) → trace ≡ front ++ Event.Keeps e ∷ back
        → e.feed ≡ Events node.me → e.body ≡ Launched j n seen
        → is_ready node.net (held_after node front) node.me j ≡ true }
    ensures number { (defs : Defs) (turns : ℕ) (node : NodeState) (trace : Trace) (end : Option NodeEnd) (new : Running)
        → Run defs turns (running node) trace end new
        → (front back : Trace) (e : Entry) (j n : ℕ) (seen : Seen) → trace ≡ front ++ Event.Keeps e ∷ back
        → e.feed ≡ Events node.me → e.body ≡ Launched j n seen
        → n ≡ 1 + launches j (held_after node front (Events node.me)) }
{}

/// What goes out was kept before. A job is started with the work that its document has in what the node held then; a
/// launch is killed where the last entry that was kept obeys an order to kill its job, and it is the job's open one; and a
/// frame to a workstation brings an entry that the node held then, at its place, or how many of a feed it held.
pub fn what_goes_out_was_kept()
    ensures starts { (defs : Defs) (turns : ℕ) (node : NodeState) (trace : Trace) (end : Option NodeEnd) (new : Running)
        → Run defs turns (running node) trace end new
        → (front back : Trace) (call : StartCall) → trace ≡ front ++ Event.Starts call ∷ back
        → IsItsWork (held_after node front) call }
    ensures kills { (defs : Defs) (turns : ℕ) (node : NodeState) (trace : Trace) (end : Option NodeEnd) (new : Running)
        → Run defs turns (running node) trace end new
        → (front back : Trace) (j n : ℕ) → trace ≡ front ++ Event.Kills j n ∷ back → IsObeyedKill node front j n }
    ensures sends { (defs : Defs) (turns : ℕ) (node : NodeState) (trace : Trace) (end : Option NodeEnd) (new : Running)
        → Run defs turns (running node) trace end new
        → (front back : Trace) (call : Sent) → trace ≡ front ++ Event.Sends call ∷ back
        → TellsOfHeld (held_after node front) call.bytes }
{}

/// Where an entry was refused, that is the last event, and the end of the run is the refusal's: nothing was started,
/// killed, sent, replied or asked for behind it.
pub fn nothing_follows_a_refusal()
    ensures { (defs : Defs) (turns : ℕ) (node : NodeState) (trace : Trace) (end : Option NodeEnd) (new : Running)
        → Run defs turns (running node) trace end new
        → (front back : Trace) (e : Entry) (why : NodeEnd) → trace ≡ front ++ Event.Refuses e why ∷ back
        → (back ≡ []) × (end ≡ Some why) × IsRefusal why }
{}

/// A run that ends for a refusal refused one entry, and for this end; and a run that ends otherwise refused none. A run
/// that ends for a limit has met it: its file was full, or an input met a place that was spent, in the node as it then is.
pub fn ends_have_their_refusals()
    ensures forced { (defs : Defs) (turns : ℕ) (node : NodeState) (trace : Trace) (why : NodeEnd) (new : Running)
        → Run defs turns (running node) trace (Some why) new → IsRefusal why
        → (e : Entry) × (refusals trace ≡ (e, why) ∷ []) }
    ensures unforced { (defs : Defs) (turns : ℕ) (node : NodeState) (trace : Trace) (why : NodeEnd) (new : Running)
        → Run defs turns (running node) trace (Some why) new → (IsRefusal why → ⊥) → refusals trace ≡ [] }
    ensures limits { (defs : Defs) (turns : ℕ) (node : NodeState) (trace : Trace) (name : LimitName) (new : Running)
        → Run defs turns (running node) trace (Some (Limit name)) new → IsMet new.node name }
{}

/// A file is told among the node's own events directly behind a probe that found it, which was for this dependency: it
/// waited for its file then. What follows a probe that found a file tells it of the dependency that was looked for, or the
/// run ends there; this is said of a node in its network.
pub fn files_follow_probes()
    ensures probed { (defs : Defs) (turns : ℕ) (node : NodeState) (trace : Trace) (end : Option NodeEnd) (new : Running)
        → Run defs turns (running node) trace end new
        → (front back : Trace) (e : Entry) (o : Obj) (i : ℕ) → trace ≡ front ++ Event.Keeps e ∷ back
        → TellsFile node.me e o i → EndsWithItsProbe node front o i }
    ensures told { (defs : Defs) (turns : ℕ) (node : NodeState) (trace : Trace) (end : Option NodeEnd) (new : Running)
        → Run defs turns (running node) trace end new → node.me < node_count node.net
        → (front back : Trace) (path : List ℕ) → trace ≡ front ++ Event.Looks path (Ok true) ∷ back
        → FollowsFile node front path back end }
{}

/// An order of the node to itself that nobody asked for is the advice of what the node held then. Such an order reruns no
/// job with an obeyed rerun, and of two that rerun one job the earlier is never obeyed: so at most one of them is.
pub fn advice_reruns_once()
    ensures advised { (defs : Defs) (turns : ℕ) (node : NodeState) (trace : Trace) (end : Option NodeEnd) (new : Running)
        → Run defs turns (running node) trace end new
        → (front back : Trace) (e : Entry) → trace ≡ front ++ Event.Keeps e ∷ back
        → e.feed ≡ Orders node.me node.me → is_alone front ≡ true
        → (c : Cmd) × (e.body ≡ Order c) × (advice (held_after node front) node.me ≡ Some c) }
    ensures not_yet { (defs : Defs) (turns : ℕ) (node : NodeState) (trace : Trace) (end : Option NodeEnd) (new : Running)
        → Run defs turns (running node) trace end new
        → (front back : Trace) (e : Entry) (j : ℕ) → trace ≡ front ++ Event.Keeps e ∷ back
        → IsOwnOrder node.me front e (Rerun j) → reruns j (held_after node front (Events node.me)) ≡ 0 }
    ensures once { (defs : Defs) (turns : ℕ) (node : NodeState) (trace : Trace) (end : Option NodeEnd) (new : Running)
        → Run defs turns (running node) trace end new
        → (front middle back : Trace) (e d : Entry) (j : ℕ)
        → trace ≡ front ++ Event.Keeps e ∷ (middle ++ Event.Keeps d ∷ back)
        → IsOwnOrder node.me front e (Rerun j) → IsOwnOrder node.me (front ++ Event.Keeps e ∷ middle) d (Rerun j)
        → All (λ body. body ≢ Obeyed node.me e.place (Rerun j)) (held_after node trace (Events node.me)) }
{
    recovery_watch::reruns_are_advised_once();
}
