//! The place of an entry as the last one of several numbers.
ghost use Rattle.std.specs.Prelude.{◌≡◌, ◌==◌, ◌||◌, ℕ, Bool, List, OnOk};
ghost use Rattle.model.specs.Types.{Body as Told, Entry as Taken};
ghost use Rattle.model.specs.Words.{has};
ghost use Rattle.counted_facts.specs.Subjects.{have_number};
ghost use Rattle.counted_facts.specs.Timelines.{AreHalfTold, TellsPlace};

use crate::timelines::Timelines;
use base_types::{NoMemory, StreamDoc, StreamNo};

/// The number of a stream.
pub(crate) fn number_of(s: &StreamNo) -> u32
    ensures { result ≡ s.now }
{
    s.0
}

/// Tells the timeline of a number a place in the list of w.
pub(crate) fn tell_number(
    timelines: &mut Timelines<u32>,
    w: u16,
    place: u32,
    n: u32,
) -> Result<(), NoMemory>
    ensures { OnOk result ((fact : ℕ → List Told → ℕ) (G : List Taken) (e : Taken) (done : ℕ → Bool)
        → TellsPlace fact G e w place (λ m. n == m) → AreHalfTold fact G e done timelines.old
        → AreHalfTold fact G e (λ m. done m || (n == m)) timelines.new) }
{
    timelines.tell(w, u64::from(n), place, place)
}

/// Tells the timelines of these documents' numbers a place in the list of w.
pub(crate) fn tell_docs(
    timelines: &mut Timelines<u32>,
    w: u16,
    place: u32,
    docs: &[StreamDoc],
) -> Result<(), NoMemory>
    ensures { OnOk result ((fact : ℕ → List Told → ℕ) (G : List Taken) (e : Taken) (done : ℕ → Bool)
        → TellsPlace fact G e w place (have_number docs.now) → AreHalfTold fact G e done timelines.old
        → AreHalfTold fact G e (λ m. done m || have_number docs.now m) timelines.new) }
{
    for doc in docs {
        tell_number(timelines, w, place, number_of(&doc.no))?;
    }
    Ok(())
}

/// Tells the timelines of these numbers a place in the list of w.
pub(crate) fn tell_numbers(
    timelines: &mut Timelines<u32>,
    w: u16,
    place: u32,
    numbers: &[StreamNo],
) -> Result<(), NoMemory>
    ensures { OnOk result ((fact : ℕ → List Told → ℕ) (G : List Taken) (e : Taken) (done : ℕ → Bool)
        → TellsPlace fact G e w place (has numbers.now) → AreHalfTold fact G e done timelines.old
        → AreHalfTold fact G e (λ m. done m || has numbers.now m) timelines.new) }
{
    for number in numbers {
        tell_number(timelines, w, place, number_of(number))?;
    }
    Ok(())
}
