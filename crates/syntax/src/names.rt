//! Names as words.
ghost use Rattle.std.specs.Prelude.{◌≡◌, IfOk};
ghost use Rattle.syntax.specs.Names.{name_of};

use base_types::{NoMemory, Text, is_name};
use std::alloc::Global;

/// The name that a word is, in upper case. None where the word has not the form of a name.
#[tactic(auto, unfolding(crate::specs::Names::name_of))]
pub fn name(alloc: Global, word: &str) -> Result<Option<Text>, NoMemory>
    ensures { IfOk result (λ o. o ≡ name_of word.now) }
{
    if !is_name(word) {
        return Ok(None);
    }
    Ok(Some(Text::of_upper(alloc, word)?))
}
