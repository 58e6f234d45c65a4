//! What words ask for.
ghost use Rattle.std.specs.Prelude.{◌≡◌};
ghost use Rattle.view_words.specs.Forms as spec;

/// What is asked about a workstation.
#[derive(Clone, Copy)]
pub(crate) enum Look {
    /// The entries that its file keeps.
    Kept,
    /// Why the jobs and streams of its plan wait.
    Why,
}

/// What the first word asks for. None where it is no such word.
#[tactic(auto, unfolding(crate::specs::Forms::look_of))]
pub(crate) fn asked(word: &str) -> Option<Look>
    ensures { result ≡ spec.look_of word.now }
{
    if word == "kept" {
        return Some(Look::Kept);
    }
    if word == "why" {
        return Some(Look::Why);
    }
    None
}
