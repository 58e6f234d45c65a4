//! Which of two ready jobs is launched first.
ghost use Rattle.std.specs.Prelude.{◌≡◌};
ghost use Rattle.decision_rules.specs.Ranks as ranks;

/// What decides between two ready jobs: the priority of the stream, the job's own, and the job's number.
#[derive(Clone, Copy)]
pub struct Rank {
    pub stream: u8,
    pub job: u8,
    pub number: u32,
}

/// Whether a comes before b: by the higher priority of the stream, then the higher of its own, then the lower number.
pub fn comes_before(a: &Rank, b: &Rank) -> bool
    ensures { result ≡ ranks.comes_before a.now b.now }
{
    if a.stream != b.stream {
        return a.stream > b.stream;
    }
    if a.job != b.job {
        return a.job > b.job;
    }
    a.number < b.number
}
