//! Conditions read from text.
ghost use Rattle.std.specs.Prelude.{◌≡◌, ◌⊎◌, ◌<◌, ◌≤◌, ◌^◌, ℕ, List, length, Ok, Err};
ghost use Rattle.model.specs.Types.{CondOp as Operation};
ghost use Rattle.rc_conditions.specs.declared.CondFault.TheVariants.{Bad, TooLong, NoMemory as NoRoom};
ghost use Rattle.rc_conditions.specs.Answers.{AnswersExactly, IsCondition, IsFirstFault, IsTooLong};
ghost use Rattle.rc_conditions.specs.Machine.{read_of};

use crate::CondFault;
use crate::readers::Reader;
use crate::tokens::{is_blank, token_of, width};
use base_types::{Cond, NoMemory};
use std::alloc::Global;

impl From<NoMemory> for CondFault {
    ghost from_gives = { λ _ fault. fault ≡ NoRoom };

    fn from(_error: NoMemory) -> CondFault {
        CondFault::NoMemory
    }
}

/// The condition that a text is, as its operations in postfix order.
///
/// Bad where the text is no condition: with the place, in bytes from 0, of the first word, number, mark or other
/// character that no condition has behind what stands before it, or with the length of the text where that only ends
/// too early. TooLong where it is a condition of more than 64 operations, parentheses not counted.
pub fn read_cond(alloc: Global, text: &str) -> Result<Cond, CondFault>
    requires { length text.now < 2 ^ 32 }
    ensures read { (ops : List Operation) → AnswersExactly result (Ok ops) (IsCondition text.now ops) }
    ensures bad { (place : ℕ) → AnswersExactly result (Err (Bad place)) (IsFirstFault text.now place) }
    ensures too_long { AnswersExactly result (Err TooLong) (IsTooLong text.now) }
{
    read_bytes(alloc, text.as_bytes())
}

fn read_bytes(alloc: Global, text: &[u8]) -> Result<Cond, CondFault>
    requires { length text.now < 2 ^ 32 }
    ensures { (result ≡ read_of text.now) ⊎ (result ≡ Err NoRoom) }
{
    let mut reader = Reader::new(alloc);
    let mut at = 0;
    while at < text.len() {
        let rest = &text[at..];
        if is_blank(rest[0]) {
            at += 1;
            continue;
        }
        let end = width(rest);
        let Some(next) = reader.take(token_of(&rest[..end]))? else {
            return Err(CondFault::Bad(at as u32));
        };
        reader = next;
        at += end;
    }
    reader.end(at as u32)
}
