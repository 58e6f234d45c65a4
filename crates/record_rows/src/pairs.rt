//! Two names of a line.
ghost use Rattle.std.specs.Prelude.{◌≡◌, IfOk};
ghost use Rattle.record_rows.specs.Behind as spec;
ghost use Rattle.record_rows.specs.Steps.{pair_of};

use crate::spellings::first_word;
use base_types::{NoMemory, Text};
use std::alloc::Global;
use syntax::name;

/// `B`, behind a name
fn pair_with(alloc: Global, a: Text, b: &str) -> Result<Option<(Text, Text)>, NoMemory>
    ensures { IfOk result (λ o. o ≡ spec.pair_with a b.now) }
{
    let Some(b) = name(alloc, b)? else {
        return Ok(None);
    };
    Ok(Some((a, b)))
}

/// `A` and `B`, each a word of its own
pub(crate) fn two_names(alloc: Global, a: &str, b: &str) -> Result<Option<(Text, Text)>, NoMemory>
    ensures { IfOk result (λ o. o ≡ spec.two_names a.now b.now) }
{
    match name(alloc, a)? {
        Some(a) => pair_with(alloc, a, b),
        None => Ok(None),
    }
}

/// `A B`
pub(crate) fn pair(alloc: Global, rest: &str) -> Result<Option<(Text, Text)>, NoMemory>
    ensures { IfOk result (λ o. o ≡ pair_of rest.now) }
{
    let (a, b) = first_word(rest);
    two_names(alloc, a, b)
}
