//! Entries that leave the ways of feeds.
ghost use Rattle.std.specs.Prelude.{◌≡◌, ◌++◌, ◌∷◌, [], ℕ, List, true};
ghost use Rattle.model.specs.Types.{Entry as Taken, Feed, Net};
ghost use Rattle.model.specs.History.{view_of};
ghost use Rattle.model.specs.Forwarding.{forwards};
ghost use Rattle.mailman_routes.specs.Quiet as spec;

use base_types::{Body, Entry};

/// Whether a body is no plan, no stream that is added to one, and no command that is obeyed.
fn is_quiet(body: &Body) -> bool
    ensures { result ≡ spec.is_quiet body.now }
{
    match body {
        Body::NewPlan(_, _, _, _) | Body::Added(_, _, _) | Body::Obeyed(_, _, _) => false,
        _ => true,
    }
}

/// Whether an entry is known to leave whom each feed is passed on to, whoever takes it. It takes one look.
pub fn keeps_ways(e: &Entry) -> bool
    ensures { result ≡ true → (net : Net) (kept : List Taken) (n m : ℕ) (f : Feed)
        → forwards net (view_of (kept ++ e.now ∷ [])) n m f ≡ forwards net (view_of kept) n m f }
{
    is_quiet(&e.body)
}
