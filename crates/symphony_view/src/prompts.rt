//! What is known of a global prompt.
ghost use Rattle.std.specs.Prelude.{◌≡◌};
ghost use Rattle.model.specs.Types.{Events};
ghost use Rattle.model.specs.History.{view_of};
ghost use Rattle.model.specs.Facts.{global_reply};
ghost use Rattle.symphony_view.specs.Words as spec;

use base_types::PromptDef;
use network_tree::is_only_shown;
use owner_fold::Owners;

/// What is known of a global prompt.
#[derive(Clone, Copy)]
pub(crate) enum PromptState {
    Waiting,
    Yes,
    No,
    /// Its text begins with a colon, and it wants no reply.
    Shown,
}

/// The state of the global prompt of this number, counted from 1.
pub(crate) fn prompt_state(o: &Owners, number: u16, prompt: &PromptDef) -> PromptState
    ensures { result ≡ spec.prompt_state prompt.now.text (global_reply number (view_of o.now (Events 0))) }
{
    if is_only_shown(&prompt.text) {
        return PromptState::Shown;
    }
    match o.global_reply(number) {
        None => PromptState::Waiting,
        Some(true) => PromptState::Yes,
        Some(false) => PromptState::No,
    }
}

/// Its word in a listing.
pub(crate) fn prompt_word(state: PromptState) -> &'static str
    ensures { result.now ≡ spec.prompt_word state }
{
    match state {
        PromptState::Waiting => "waiting",
        PromptState::Yes => "yes",
        PromptState::No => "no",
        PromptState::Shown => "shown",
    }
}

/// Its number in Symphony.
pub(crate) fn prompt_number(state: PromptState) -> u8
    ensures { result ≡ spec.prompt_number state }
{
    match state {
        PromptState::Waiting => 0,
        PromptState::Yes => 1,
        PromptState::No => 2,
        PromptState::Shown => 3,
    }
}
