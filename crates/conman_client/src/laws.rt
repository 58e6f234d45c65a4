//! What holds of every ask.
ghost use Rattle.std.specs.Prelude.{◌≡◌, ◌≢◌, ℕ, List, Result, Err};
ghost use Rattle.base_types.specs.declared.Peer.{Peer as APeer};
ghost use Rattle.conman_client.specs.declared.ends.AskEnd.{AskEnd as End};
ghost use Rattle.conman_client.specs.declared.ends.AskEnd.TheVariants.{NoMemory as NoRoom};
ghost use Rattle.conman_client.specs.Asks.{Made, IsAsk};

use mail_frames::one_reading;

/// The calls of an ask fix its answer, but for want of memory.
pub fn one_answer()
    ensures { (peer : APeer) → (command : List ℕ) → (made : Made) → (answer other : Result (List ℕ) End) →
        IsAsk peer command made answer → IsAsk peer command made other → answer ≢ Err NoRoom → other ≢ Err NoRoom →
        answer ≡ other }
{
    one_reading();
}
