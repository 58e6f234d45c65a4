//! Prompts that want no reply.
ghost use Rattle.std.specs.Prelude.{◌≡◌};
ghost use Rattle.model.specs.Dependencies as spec;

use base_types::Text;

/// Whether a prompt of this text is only shown, and asks for no reply: it begins with a colon.
pub fn is_only_shown(text: &Text) -> bool
    ensures { result ≡ spec.is_only_shown text.now }
{
    match text.as_str().as_bytes() {
        [first, ..] => *first == b':',
        [] => false,
    }
}
