//! The answer to words.
ghost use Rattle.std.specs.Prelude.{◌≡◌, ◌≢◌, ◌⊎◌, Some, None, IsTrue, false};
ghost use Rattle.std.specs.Io.KnownBytes.{Keeps};
ghost use Rattle.outside.specs.Causes.{Rose};
ghost use Rattle.input_commands.specs.declared.words.Telling.TheVariants as tells;
ghost use Rattle.input_commands.specs.declared.words.Wanted.TheVariants as wants;
ghost use Rattle.input_commands.specs.declared.words.Asked.TheVariants as asks;
ghost use Rattle.input_commands.specs.Words.{asked_of, asks_input};
ghost use Rattle.input_commands.specs.Audits.{WritesHistory};
ghost use Rattle.input_commands.specs.Dues.{IsAnswer};

use crate::inputs::reply_to_input;
use crate::samples::reply_to_sample;
use crate::says::{Done, answer, silent};
use crate::unsaid_replies::Silence;
use crate::words::{Asked, read_words};
use base_types::Text;
use outside::{Sink, Source};
use replies::{Status, say};
use std::alloc::Global;

/// Does what words ask for that are answered by the input alone (`specs/Words`), and ends with the exit status.
///
/// `specs/Dues` is the table of what is due: the status, the text and the world that is handed back, in the order of
/// their causes. Other words are answered with 2. With 4, where the source failed, and with 9 for want of memory nothing
/// is said and no world is handed back; with 5, where the sink failed, a front of the text that is due was written.
/// Nothing is written before the run has ended. The rows of the single statuses follow from this table.
pub fn answer_words<I: Source, O: Sink>(
    alloc: Global,
    words: &[Text],
    input: &mut I,
    out: &mut O,
) -> Done
    // What is due is said and handed back, but for a fault of the source and want of memory.
    ensures due { result.status ≢ 4 → result.status ≢ 9 → IsAnswer words.now (I.stream input.old) (I.stream input.new)
        result.status result.world (O.written out.old) (O.written out.new) (O.faults out.old) (O.faults out.new) }
    // What `history` writes is a text that `audit` reads, and finds sound.
    ensures history { result.status ≡ 0 → asked_of words.now ≡ Some (asks.Input (wants.Night tells.History))
        → WritesHistory (O.written out.old) (O.written out.new) }

    // Why nothing is said.
    ensures source_failed { result.status ≡ 4 → Rose (I.faults input.old) (I.faults input.new) }
    ensures source_asked { result.status ≡ 4 → IsTrue (asks_input (asked_of words.now)) }
    ensures memory { result.status ≡ 9 → asked_of words.now ≢ None }
    ensures no_words { asked_of words.now ≡ None → (result.status ≡ 2) ⊎ (result.status ≡ 5) }
    ensures silent { (result.status ≡ 4) ⊎ (result.status ≡ 9) → Keeps (O.written out.old) (O.written out.new) }
    ensures alone { (result.status ≡ 4) ⊎ (result.status ≡ 9) → result.world ≡ None }

    // What is left alone, and what the counts of faults tell.
    ensures input_untouched { asks_input (asked_of words.now) ≡ false → input.new ≡ input.old }
    ensures source_count { result.status ≢ 4 → I.faults input.new ≡ I.faults input.old }
    ensures sink_count { result.status ≢ 5 → O.faults out.new ≡ O.faults out.old }
{
    match read_words(words) {
        None => Done {
            status: say(out, b"words refused\n", Status::WordsRefused),
            world: None,
        },
        Some(Asked::Sample(jobs, seed)) => match reply_to_sample(alloc, jobs, seed) {
            Ok(reply) => answer(out, reply),
            Err(_) => silent(Silence::NoMemory),
        },
        Some(Asked::Input(wanted)) => match reply_to_input(alloc, input, wanted) {
            Ok(reply) => answer(out, reply),
            Err(why) => silent(why),
        },
    }
}
