//! Whether two texts are one.
ghost use Rattle.std.specs.Prelude.{◌≡◌};
ghost use Rattle.std.specs.Bool.{Decides};

use base_types::Text;

/// Whether the two texts are one.
pub fn is_same_text(a: &Text, b: &Text) -> bool
    ensures { Decides result (a.now ≡ b.now) }
{
    a.as_str() == b.as_str()
}

/// Whether there are no texts, or two that are one.
pub(crate) fn is_same_text_or_none(a: &Option<Text>, b: &Option<Text>) -> bool
    ensures { Decides result (a.now ≡ b.now) }
{
    match a {
        None => match b {
            None => true,
            Some(_) => false,
        },
        Some(text) => match b {
            None => false,
            Some(other) => is_same_text(text, other),
        },
    }
}
