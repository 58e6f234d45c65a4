//! The states of streams and of jobs by their words.
ghost use Rattle.std.specs.Prelude.{◌≡◌, map};
ghost use Rattle.report_text.specs.States as spec;

/// The states of streams, by their numbers from 0.
pub(crate) const STREAM_WORDS: [&str; 7] = [
    "HOLD", "READY", "EXEC", "STUCK", "SUCC", "ABEND", "CANCEL",
];

/// The states of jobs, by their numbers from 0.
pub(crate) const JOB_WORDS: [&str; 9] = [
    "HOLD", "FENCE", "READY", "INTRO", "EXEC", "SUCC", "ABEND", "FAIL", "CANCEL",
];

/// The word of a stream's state by its number, from 0 in the order of the summary, and the empty text for another
/// number than 0 to 6.
pub fn stream_word(number: u8) -> &'static str
    ensures { result.now ≡ spec.word_at spec.stream_words number }
{
    word_at(&STREAM_WORDS, number)
}

/// The word of a job's state by its number, from 0 in the order of the summary, and the empty text for another number
/// than 0 to 8.
pub fn job_word(number: u8) -> &'static str
    ensures { result.now ≡ spec.word_at spec.job_words number }
{
    word_at(&JOB_WORDS, number)
}

fn word_at(words: &[&'static str], number: u8) -> &'static str
    ensures { result.now ≡ spec.word_at (map (λ w. w.now) words.now) number }
{
    match words.get(usize::from(number)) {
        Some(word) => word,
        None => "",
    }
}
