//! What a waiting job watches.
ghost use Rattle.std.specs.Prelude.{◌≡◌};
ghost use Rattle.ready_index.specs.Targets as spec;

use base_types::Dep;

/// What a waiting job watches, by its number.
#[derive(Clone, Copy)]
pub(crate) enum Target {
    /// The release of a stream.
    ReleaseOf(u32),
    /// That a job lets its followers go.
    EndOfJob(u32),
    /// That a stream lets its followers go.
    EndOfStream(u32),
}

/// What a FOLLOWS waits for. None of another dependency.
pub(crate) fn followed(dep: &Dep) -> Option<Target>
    ensures { result ≡ spec.followed dep.now }
{
    match dep {
        Dep::FollowsJob(j) => Some(Target::EndOfJob(j.0)),
        Dep::FollowsStream(s) => Some(Target::EndOfStream(s.0)),
        Dep::Needs(_, _) | Dep::Prompt(_) | Dep::At(_) | Dep::Until(_, _) => None,
        Dep::Outside(_) | Dep::Deadline(_) => None,
    }
}
