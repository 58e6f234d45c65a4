//! The numbers and texts of rows.
ghost use Rattle.std.specs.Prelude.{◌≡◌, [], IfOk};
ghost use Rattle.record_script.specs.Numbers as spec;

use base_types::{Copied, NoMemory, Text};
use record_rows::Ranged;
use std::alloc::Global;

/// A number within its range, or another in place of one outside it.
pub(crate) fn within<T: Copy>(other: T, number: &Ranged<T>) -> T
    ensures { result ≡ spec.within other number.now }
{
    match number {
        Ranged::Within(n) => *n,
        Ranged::OutOfRange => other,
    }
}

/// A text within its range, or the empty one in place of one outside it.
pub(crate) fn text_within(alloc: Global, text: &Ranged<Text>) -> Result<Text, NoMemory>
    ensures { IfOk result (λ t. t ≡ spec.within [] text.now) }
{
    match text {
        Ranged::Within(t) => t.copy(),
        Ranged::OutOfRange => Ok(Text::new(alloc)),
    }
}

/// Two texts, each a copy.
pub(crate) fn copy_texts(first: &Text, second: &Text) -> Result<(Text, Text), NoMemory>
    ensures { IfOk result (λ c. c ≡ (first.now, second.now)) }
{
    Ok((first.copy()?, second.copy()?))
}
