//! The top call.
ghost use Rattle.std.specs.Prelude.{◌≡◌, ◌≢◌, ◌⊎◌, ◌↔◌, ◌≤◌, ℕ, List, Ok, Option, length, Some, None, IsSome, IsTrue, false};
ghost use Rattle.std.specs.Io.KnownBytes.{Appends, Keeps};
ghost use Rattle.command_laws.specs.Canonical.{WritesCanonical, WritesSamePlans};
ghost use Rattle.composer_parser.specs.declared.Defs.{Defs as Definitions};
ghost use Rattle.input_commands.specs.declared.Wish.{Wish as Wishes};
ghost use Rattle.input_commands.specs.declared.Wish.TheVariants as wishes;
ghost use Rattle.definition_texts.specs.Refusals.{AreChecked};
ghost use Rattle.history_script.specs.declared.histories.HistoryText.{HistoryText as Histories};
ghost use Rattle.listing_runs.specs.Listings.{WritesRecord};
ghost use Rattle.model.specs.Sound.{IsSound};
ghost use Rattle.model.specs.World as model;
ghost use Rattle.night_records.specs.declared.Record.{Record as Records};
ghost use Rattle.node_inputs.specs.Tellings.{told_by};
ghost use Rattle.node_inputs.specs.declared.ends.NodeEnd.{NodeEnd as RunEnds};
ghost use Rattle.node_inputs.specs.declared.ends.NodeEnd.TheVariants as run_ends;
ghost use Rattle.outside.specs.Causes.{Rose};
ghost use Rattle.outside.specs.Streams.{Stream};
ghost use Rattle.plan_builder.specs.Limits.{plan_fault};
ghost use Rattle.record_runs.specs.Runs.{done as reaches};
ghost use Rattle.sample_record.specs.Samples.{sample_of};
ghost use Rattle.input_commands.specs.Audits.{AreHistory, WritesHistory};
ghost use Rattle.input_commands.specs.Dues.{LeftCallsFor};
ghost use Rattle.replies.specs.Sayings.{Says};
ghost use Rattle.input_commands.specs.Nights.{AreRead, IsRun, Night};
ghost use Rattle.input_commands.specs.Words.{asked_of, asks_input, asks_record};
ghost use Rattle.replies.specs.declared.statuses.Status.{Status as Statuses};
ghost use Rattle.input_commands.specs.declared.words.Asked.TheVariants as asks;
ghost use Rattle.input_commands.specs.declared.words.Telling.{Telling};
ghost use Rattle.input_commands.specs.declared.words.Telling.TheVariants as tells;
ghost use Rattle.input_commands.specs.declared.words.Wanted.{Wanted as Wants};
ghost use Rattle.input_commands.specs.declared.words.Wanted.TheVariants as wants;
ghost use Rattle.workload_defs.specs.Stations.{number_of};
ghost use Rattle.tws_top.specs.Dues.{IsAnswer, LeftCallsFor as ServiceLeftCallsFor};
ghost use Rattle.node_commands.specs.Forms.{AskOf, NodeFor, Request, request_of};
ghost use Rattle.tws_top.specs.InputRows.{Compiles, FindsSound, FindsWrong, PassesLimit, Plans, Refuses};
ghost use Rattle.tws_top.specs.InputRows.{RefusesDefinitions, RefusesHistory, Tells};
ghost use Rattle.tws_top.specs.ServiceRows.{EndsAtLimit, FindsOtherFile, HasNoAnswer, HasNoStation, HasReply, HasServed};
ghost use Rattle.tws_top.specs.ServiceRows.{PassesLimit as ServicePassesLimit, RefusesRequest};
ghost use Rattle.node_commands.specs.Services.{AskedBy, IsService, ServedBy};

use base_types::Text;
use file_watch::Prober;
use input_commands::{Done as TextDone, answer_words};
use network_world::World;
use node_commands::{Ended, asked_service, serve};
use outside::{Clock, Disk, Link, Sink, Source, Spawner};
use std::alloc::Global;

/// How a call of the program ends.
#[derive(Drop)]
pub struct Done<D> {
    /// The exit status.
    pub status: u8,
    /// The disk that was handed in.
    pub disk: D,
    /// The world that the steps of a record made, where it was told.
    pub world: Option<World>,
}

/// Does all that the program does, and ends with its exit status.
///
/// The words are `replay`, which reads the record of a night from the input, takes its steps over the nodes of its
/// network and writes the report of what happened; `summary`, which writes the counts of it instead; `history`, which
/// writes its network, entries and starts as a text that can be audited; `compile`, which reads definitions from the
/// input and writes their canonical text; `plan MM/DD/YYYY`, which writes the network and the drafts of that day
/// instead; `audit`, which reads a history from the input and writes how many entries and starts it has, where it is
/// sound; `sample N K`, which reads nothing and writes a record with N jobs (1 to 2000), drawn from the seed K; `node NAME
/// TURNS`, which reads definitions from the input and serves their workstation NAME over the disk for at most so many
/// turns (0 to 4,294,967,295), and writes nothing where a client shut it down; or `ask NAME COMMAND`, which reads
/// definitions from the input, asks the node of their workstation NAME a command line of at most 4,096 bytes, and writes
/// its reply. A record has a network and plans, or begins with definitions.
///
/// The statuses are 0 where that was written, 1 for an input that is no definitions, or has a time without a moment on the
/// day that is planned, 2 for other words and for a NAME that is not defined, 3 for an input that is no record, or has
/// definitions with a fault or a step that cannot be taken, and for one that is no history, 4, 5 and 6 where the source,
/// the sink or the disk failed, 7 for a disk that holds another file than the workstation's, with the place that shows it,
/// 8 for a node that took all its turns, 9 for want of memory, 10 where the input, a run or a plan passes a limit, 11 for a
/// history that is not sound, with its first wrong item, and 12 for a node that gave no reply. Nothing is written before
/// all is done. With 4, 6 and 9 nothing is written at all, and with 5 a front of the text that is due. With `replay`,
/// `summary`, `history` and 0 the world that the steps made is handed back. The disk is handed back with every status, and
/// words other than those of `node` make no call on it, and none on processes, clock and files; words other than those of
/// `node` and `ask` make none on the link. With 1, 2 and 4 nothing but source and sink was called, with 7 the disk besides.
pub fn tws<I: Source, O: Sink, D: Disk, L: Link, J: Spawner, C: Clock, F: Prober>(
    alloc: Global,
    words: &[Text],
    input: &mut I,
    out: &mut O,
    disk: D,
    link: &mut L,
    jobs: &mut J,
    clock: &mut C,
    files: &mut F,
) -> Done<D>
    // What is due is said and handed back, but for a fault of the source and want of memory.
    ensures due { result.status ≢ 4 → result.status ≢ 9
        → IsAnswer (ServedBy D.seen D.faults D.moment D.may_leave D.left_since disk result.disk
        (told_by (L.calls link.old) (J.calls jobs.old) (C.readings clock.old) (F.asked files.old))
        (told_by (L.calls link.new) (J.calls jobs.new) (C.readings clock.new) (F.asked files.new))
        ((link.new ≡ link.old) × (jobs.new ≡ jobs.old) × (clock.new ≡ clock.old) × (files.new ≡ files.old)))
        (AskedBy (L.calls link.old) (L.calls link.new) (L.faults link.old) (L.faults link.new))
        words.now (I.stream input.old) (I.stream input.new)
        result.status result.world (O.written out.old) (O.written out.new) (O.faults out.old) (O.faults out.new) }

    // What a service came to, whatever was said of it, with what a stop at any moment of it leaves.
    ensures service { (request : Request) → request_of words.now ≡ Some request
        → IsService (ServedBy D.seen D.faults D.moment D.may_leave D.left_since disk result.disk
        (told_by (L.calls link.old) (J.calls jobs.old) (C.readings clock.old) (F.asked files.old))
        (told_by (L.calls link.new) (J.calls jobs.new) (C.readings clock.new) (F.asked files.new))
        ((link.new ≡ link.old) × (jobs.new ≡ jobs.old) × (clock.new ≡ clock.old) × (files.new ≡ files.old)))
        (AskedBy (L.calls link.old) (L.calls link.new) (L.faults link.old) (L.faults link.new))
        ((result.disk ≡ disk) × (link.new ≡ link.old) × (jobs.new ≡ jobs.old) × (clock.new ≡ clock.old)
        × (files.new ≡ files.old))
        ((result.disk ≡ disk) × (jobs.new ≡ jobs.old) × (clock.new ≡ clock.old) × (files.new ≡ files.old))
        request (I.stream input.old) (I.stream input.new) (I.faults input.old) (I.faults input.new) result.status
        (O.written out.old) (O.written out.new) (O.faults out.old) (O.faults out.new) }

    // What the bytes of the source call for is not withheld, but for a fault of the source and want of memory.
    ensures exact { (source : Stream) (wanted : Wants) → I.stream input.old ≡ Some source
        → asked_of words.now ≡ Some (asks.Input wanted)
        → (status : Statuses) (text : List ℕ) (night : Option Night) → LeftCallsFor wanted source.left status text night
        → result.status ≢ 4 → result.status ≢ 9
        → Says status text result.status (O.written out.old) (O.written out.new) (O.faults out.old) (O.faults out.new) }
    ensures exact_service { (source : Stream) (request : Request) → I.stream input.old ≡ Some source
        → request_of words.now ≡ Some request
        → (status : Statuses) (text : List ℕ) → ServiceLeftCallsFor request source.left status text
        → result.status ≢ 4 → result.status ≢ 9
        → Says status text result.status (O.written out.old) (O.written out.new) (O.faults out.old) (O.faults out.new) }

    // With none of the causes, the status is 0, or 9 for want of memory.
    ensures complete { (source : Stream) (telling : Telling) (r : Records) (x : model.World)
        → I.stream input.old ≡ Some source → asked_of words.now ≡ Some (asks.Input (wants.Night telling))
        → length source.left ≤ 16777216 → AreRead source.left (Ok r) → IsRun r (reaches x)
        → (Rose (I.faults input.old) (I.faults input.new) → ⊥) → (Rose (O.faults out.old) (O.faults out.new) → ⊥)
        → (result.status ≡ 0) ⊎ (result.status ≡ 9) }
    ensures complete_compile { (source : Stream) (d : Definitions) → I.stream input.old ≡ Some source
        → asked_of words.now ≡ Some (asks.Input (wants.Definitions wishes.CanonicalText))
        → length source.left ≤ 16777216 → AreChecked source.left d
        → (Rose (I.faults input.old) (I.faults input.new) → ⊥) → (Rose (O.faults out.old) (O.faults out.new) → ⊥)
        → (result.status ≡ 0) ⊎ (result.status ≡ 9) }
    ensures complete_plan { (source : Stream) (day : ℕ) (d : Definitions) → I.stream input.old ≡ Some source
        → asked_of words.now ≡ Some (asks.Input (wants.Definitions (wishes.Plan day)))
        → length source.left ≤ 16777216 → AreChecked source.left d → plan_fault d day ≡ None
        → (Rose (I.faults input.old) (I.faults input.new) → ⊥) → (Rose (O.faults out.old) (O.faults out.new) → ⊥)
        → (result.status ≡ 0) ⊎ (result.status ≡ 9) }
    ensures complete_audit { (source : Stream) (h : Histories) → I.stream input.old ≡ Some source
        → asked_of words.now ≡ Some (asks.Input wants.Audit)
        → length source.left ≤ 16777216 → AreHistory source.left (Ok h)
        → (Rose (I.faults input.old) (I.faults input.new) → ⊥) → (Rose (O.faults out.old) (O.faults out.new) → ⊥)
        → ((result.status ≡ 0) × IsSound h.net h.entries h.starts)
        ⊎ ((result.status ≡ 11) × (IsSound h.net h.entries h.starts → ⊥)) ⊎ (result.status ≡ 9) }
    ensures complete_node { (source : Stream) (name : List ℕ) (turns me : ℕ) (d : Definitions)
        → I.stream input.old ≡ Some source → request_of words.now ≡ Some (NodeFor name turns)
        → length source.left ≤ 16777216 → AreChecked source.left d → number_of d name ≡ Some me
        → (Rose (I.faults input.old) (I.faults input.new) → ⊥) → (Rose (O.faults out.old) (O.faults out.new) → ⊥)
        → (Rose (D.faults disk) (D.faults result.disk) → ⊥)
        → (result.status ≡ 0) ⊎ (result.status ≡ 7) ⊎ (result.status ≡ 8) ⊎ (result.status ≡ 9)
        ⊎ ((result.status ≡ 10) × EndsAtLimit D.seen D.faults D.moment D.may_leave D.left_since disk result.disk
        (told_by (L.calls link.old) (J.calls jobs.old) (C.readings clock.old) (F.asked files.old))
        (told_by (L.calls link.new) (J.calls jobs.new) (C.readings clock.new) (F.asked files.new))
        ((link.new ≡ link.old) × (jobs.new ≡ jobs.old) × (clock.new ≡ clock.old) × (files.new ≡ files.old))
        (NodeFor name turns) (I.stream input.old) (I.stream input.new)) }
    ensures complete_ask { (source : Stream) (name command : List ℕ) (me : ℕ) (d : Definitions)
        → I.stream input.old ≡ Some source → request_of words.now ≡ Some (AskOf name command)
        → length source.left ≤ 16777216 → AreChecked source.left d → number_of d name ≡ Some me
        → (Rose (I.faults input.old) (I.faults input.new) → ⊥) → (Rose (O.faults out.old) (O.faults out.new) → ⊥)
        → (result.status ≡ 0) ⊎ (result.status ≡ 9) ⊎ (result.status ≡ 12) }
    ensures complete_sample { (jobs seed : ℕ) → asked_of words.now ≡ Some (asks.Sample jobs seed)
        → (Rose (O.faults out.old) (O.faults out.new) → ⊥) → (result.status ≡ 0) ⊎ (result.status ≡ 9) }

    // The statuses one by one.
    ensures done { result.status ≡ 0 → (telling : Telling) → asked_of words.now ≡ Some (asks.Input (wants.Night telling))
        → Tells telling (I.stream input.old) (I.stream input.new) (O.written out.old) (O.written out.new) result.world }
    // What `history` writes is a text that `audit` reads, and finds sound.
    ensures history { result.status ≡ 0 → asked_of words.now ≡ Some (asks.Input (wants.Night tells.History))
        → WritesHistory (O.written out.old) (O.written out.new) }
    ensures compiled { result.status ≡ 0
        → asked_of words.now ≡ Some (asks.Input (wants.Definitions wishes.CanonicalText))
        → Compiles (I.stream input.old) (I.stream input.new) (O.written out.old) (O.written out.new) }
    // What `compile` writes is compiled to itself, and is planned on each day as what was compiled.
    ensures compiled_again { result.status ≡ 0
        → asked_of words.now ≡ Some (asks.Input (wants.Definitions wishes.CanonicalText))
        → WritesCanonical (O.written out.old) (O.written out.new) }
    ensures planned_again { result.status ≡ 0
        → asked_of words.now ≡ Some (asks.Input (wants.Definitions wishes.CanonicalText))
        → WritesSamePlans (I.stream input.old) (I.stream input.new) (O.written out.old) (O.written out.new) }
    ensures planned { result.status ≡ 0 → (day : ℕ)
        → asked_of words.now ≡ Some (asks.Input (wants.Definitions (wishes.Plan day)))
        → Plans day (I.stream input.old) (I.stream input.new) (O.written out.old) (O.written out.new) }
    // With `$STEPS` and `next` behind it, what `plan` writes is a record that makes the plan of the day.
    ensures planned_record { result.status ≡ 0 → (day : ℕ)
        → asked_of words.now ≡ Some (asks.Input (wants.Definitions (wishes.Plan day)))
        → WritesRecord day (I.stream input.old) (I.stream input.new) (O.written out.old) (O.written out.new) }
    ensures audited { result.status ≡ 0 → asked_of words.now ≡ Some (asks.Input wants.Audit)
        → FindsSound (I.stream input.old) (I.stream input.new) (O.written out.old) (O.written out.new) }
    ensures sampled { result.status ≡ 0 → (jobs seed : ℕ) → asked_of words.now ≡ Some (asks.Sample jobs seed)
        → Appends (O.written out.old) (O.written out.new) (sample_of jobs seed) }
    ensures shut_down { result.status ≡ 0 → (name : List ℕ) (turns : ℕ) → request_of words.now ≡ Some (NodeFor name turns)
        → HasServed (ServedBy D.seen D.faults D.moment D.may_leave D.left_since disk result.disk
        (told_by (L.calls link.old) (J.calls jobs.old) (C.readings clock.old) (F.asked files.old))
        (told_by (L.calls link.new) (J.calls jobs.new) (C.readings clock.new) (F.asked files.new))
        ((link.new ≡ link.old) × (jobs.new ≡ jobs.old) × (clock.new ≡ clock.old) × (files.new ≡ files.old)))
        words.now (I.stream input.old) (I.stream input.new) run_ends.Shutdown }
    ensures replied { result.status ≡ 0 → (name command : List ℕ) → request_of words.now ≡ Some (AskOf name command)
        → HasReply (AskedBy (L.calls link.old) (L.calls link.new) (L.faults link.old) (L.faults link.new)) words.now
        (I.stream input.old) (I.stream input.new) (O.written out.old) (O.written out.new) }
    ensures definitions_refused { result.status ≡ 1
        → ((wish : Wishes) × (asked_of words.now ≡ Some (asks.Input (wants.Definitions wish)))
        × RefusesDefinitions wish (I.stream input.old) (I.stream input.new) (O.written out.old) (O.written out.new))
        ⊎ RefusesRequest words.now (I.stream input.old) (I.stream input.new) (O.written out.old) (O.written out.new) }
    ensures words { result.status ≡ 2 → ((asked_of words.now ≡ None) × (request_of words.now ≡ None))
        ⊎ HasNoStation words.now (I.stream input.old) (I.stream input.new) }
    ensures no_words { asked_of words.now ≡ None → request_of words.now ≡ None
        → (result.status ≡ 2) ⊎ (result.status ≡ 5) }
    ensures refused { result.status ≡ 3 → asked_of words.now ≢ Some (asks.Input wants.Audit)
        → Refuses (I.stream input.old) (I.stream input.new) (O.written out.old) (O.written out.new) }
    ensures history_refused { result.status ≡ 3 → asked_of words.now ≡ Some (asks.Input wants.Audit)
        → RefusesHistory (I.stream input.old) (I.stream input.new) (O.written out.old) (O.written out.new) }
    ensures source_failed { result.status ≡ 4 → Rose (I.faults input.old) (I.faults input.new) }
    ensures source_asked { result.status ≡ 4 → IsTrue (asks_input (asked_of words.now)) ⊎ IsSome (request_of words.now) }
    ensures sink_failed { result.status ≡ 5 → Rose (O.faults out.old) (O.faults out.new) }
    ensures disk_failed { result.status ≡ 6 → Rose (D.faults disk) (D.faults result.disk) }
    ensures other_file { result.status ≡ 7 → FindsOtherFile words.now (D.seen disk) (I.stream input.old)
        (I.stream input.new) (O.written out.old) (O.written out.new) }
    ensures turns_spent { result.status ≡ 8 → HasServed (ServedBy D.seen D.faults D.moment D.may_leave D.left_since disk result.disk
        (told_by (L.calls link.old) (J.calls jobs.old) (C.readings clock.old) (F.asked files.old))
        (told_by (L.calls link.new) (J.calls jobs.new) (C.readings clock.new) (F.asked files.new))
        ((link.new ≡ link.old) × (jobs.new ≡ jobs.old) × (clock.new ≡ clock.old) × (files.new ≡ files.old)))
        words.now (I.stream input.old) (I.stream input.new) run_ends.TurnsSpent }
    ensures no_answer { result.status ≡ 12 → HasNoAnswer words.now (I.stream input.old) (I.stream input.new)
        (L.calls link.old) (L.calls link.new) (L.faults link.old) (L.faults link.new) }
    ensures limit { result.status ≡ 10
        → PassesLimit (I.stream input.old) (I.stream input.new) (O.written out.old) (O.written out.new)
        ⊎ ServicePassesLimit D.seen D.faults D.moment D.may_leave D.left_since disk result.disk
        (told_by (L.calls link.old) (J.calls jobs.old) (C.readings clock.old) (F.asked files.old))
        (told_by (L.calls link.new) (J.calls jobs.new) (C.readings clock.new) (F.asked files.new))
        ((link.new ≡ link.old) × (jobs.new ≡ jobs.old) × (clock.new ≡ clock.old) × (files.new ≡ files.old))
        words.now (I.stream input.old) (I.stream input.new)
        (O.written out.old) (O.written out.new) }
    ensures not_sound { result.status ≡ 11 → (asked_of words.now ≡ Some (asks.Input wants.Audit))
        × FindsWrong (I.stream input.old) (I.stream input.new) (O.written out.old) (O.written out.new) }
    ensures statuses { (result.status ≡ 0) ⊎ (result.status ≡ 1) ⊎ (result.status ≡ 2) ⊎ (result.status ≡ 3)
        ⊎ (result.status ≡ 4) ⊎ (result.status ≡ 5) ⊎ (result.status ≡ 6) ⊎ (result.status ≡ 7)
        ⊎ (result.status ≡ 8) ⊎ (result.status ≡ 9) ⊎ (result.status ≡ 10) ⊎ (result.status ≡ 11)
        ⊎ (result.status ≡ 12) }
    ensures silent { (result.status ≡ 4) ⊎ (result.status ≡ 9) → Keeps (O.written out.old) (O.written out.new) }
    ensures world { IsSome result.world ↔ ((result.status ≡ 0) × IsTrue (asks_record (asked_of words.now))) }

    // What is left alone, and what the counts of faults tell.
    ensures input_untouched { asks_input (asked_of words.now) ≡ false → request_of words.now ≡ None
        → input.new ≡ input.old }
    ensures outside_untouched { request_of words.now ≡ None → (result.disk ≡ disk) × (link.new ≡ link.old)
        × (jobs.new ≡ jobs.old) × (clock.new ≡ clock.old) × (files.new ≡ files.old) }
    ensures ask_untouched { (name command : List ℕ) → request_of words.now ≡ Some (AskOf name command)
        → (result.disk ≡ disk) × (jobs.new ≡ jobs.old) × (clock.new ≡ clock.old) × (files.new ≡ files.old) }
    // With 1, 2 and 4, and where the bytes of the source call for no service, nothing but source and sink was called.
    ensures unserved_untouched { (result.status ≡ 1) ⊎ (result.status ≡ 2) ⊎ (result.status ≡ 4)
        → (result.disk ≡ disk) × (link.new ≡ link.old) × (jobs.new ≡ jobs.old) × (clock.new ≡ clock.old)
        × (files.new ≡ files.old) }
    ensures left_untouched { (source : Stream) (request : Request) (status : Statuses) (text : List ℕ)
        → I.stream input.old ≡ Some source → request_of words.now ≡ Some request
        → ServiceLeftCallsFor request source.left status text → (result.disk ≡ disk) × (link.new ≡ link.old)
        × (jobs.new ≡ jobs.old) × (clock.new ≡ clock.old) × (files.new ≡ files.old) }
    // With 1, 2, 4 and 7 no node was made. With any status one ran, or nothing behind the disk was called.
    ensures node_untouched { (name : List ℕ) (turns : ℕ) → request_of words.now ≡ Some (NodeFor name turns)
        → (result.status ≡ 1) ⊎ (result.status ≡ 2) ⊎ (result.status ≡ 4) ⊎ (result.status ≡ 7)
        → (link.new ≡ link.old) × (jobs.new ≡ jobs.old) × (clock.new ≡ clock.old) × (files.new ≡ files.old) }
    ensures unmade_untouched { (name : List ℕ) (turns : ℕ) → request_of words.now ≡ Some (NodeFor name turns)
        → ((why : RunEnds) × HasServed (ServedBy D.seen D.faults D.moment D.may_leave D.left_since disk result.disk
        (told_by (L.calls link.old) (J.calls jobs.old) (C.readings clock.old) (F.asked files.old))
        (told_by (L.calls link.new) (J.calls jobs.new) (C.readings clock.new) (F.asked files.new))
        ((link.new ≡ link.old) × (jobs.new ≡ jobs.old) × (clock.new ≡ clock.old) × (files.new ≡ files.old)))
        words.now (I.stream input.old) (I.stream input.new) why)
        ⊎ ((link.new ≡ link.old) × (jobs.new ≡ jobs.old) × (clock.new ≡ clock.old) × (files.new ≡ files.old)) }
    ensures memory { result.status ≡ 9 → asked_of words.now ≡ None → request_of words.now ≢ None }
    ensures source_count { result.status ≢ 4 → I.faults input.new ≡ I.faults input.old }
    ensures sink_count { result.status ≢ 5 → O.faults out.new ≡ O.faults out.old }
{
    match asked_service(words) {
        None => {
            let TextDone { status, world } = answer_words(alloc, words, input, out);
            Done {
                status,
                disk,
                world,
            }
        }
        Some(service) => {
            let Ended { status, disk } = serve(
                alloc, service, words, input, out, disk, link, jobs, clock, files,
            );
            Done {
                status,
                disk,
                world: None,
            }
        }
    }
}
