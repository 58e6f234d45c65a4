//! Definitions from bytes and from texts.
ghost use Rattle.std.specs.Prelude.{◌≡◌, ◌⊎◌, ◌<◌, ◌≤◌, ◌-◌, ◌^◌, length, Ok, Err, IfOk};
ghost use Rattle.composer_lexer.specs.Places.{line_of};
ghost use Rattle.composer_lexer.specs.Tokens.{tokens_of};
ghost use Rattle.composer_parser.specs.declared.Defs.{Defs as Definitions};
ghost use Rattle.definition_texts.specs.Refusals.{AreChecked, IsRefused, IsReading, IsChecking};
ghost use Rattle.definition_texts.specs.declared.refusals.Refusal.{Refusal as RefusalAt};
ghost use Rattle.definition_texts.specs.declared.refusals.NotRead.TheVariants.{Refused, NoMemory as NoRoom};

use crate::kinds::RefusalKind;
use crate::refusals::{NotRead, checked, lexed, refused};
use base_types::Tokens;
use composer_lexer::tokens;
use composer_parser::{Defs, SyntaxFault, parse};
use std::alloc::Global;
use std::str;
use workload_defs::{Workload, check_whole};

/// Reads definitions from bytes, and checks them. They are refused exactly where they are no checked definitions, with
/// the line and the kind of the first cause.
pub fn read_definitions(alloc: Global, bytes: &[u8]) -> Result<Workload, NotRead>
    requires { length bytes.now < 2 ^ 32 }
    ensures checked { IfOk result (AreChecked bytes.now) }
    ensures refused { (r : RefusalAt) → result ≡ Err (Refused r) → IsRefused bytes.now r }
    ensures all_checked { (d : Definitions) → AreChecked bytes.now d → (result ≡ Ok d) ⊎ (result ≡ Err NoRoom) }
    ensures all_refused { (r : RefusalAt) → IsRefused bytes.now r → (result ≡ Err (Refused r)) ⊎ (result ≡ Err NoRoom) }
{
    from_bytes(alloc, bytes)
}

/// The same of what is known to be a text.
pub fn read_definition_text(alloc: Global, text: &str) -> Result<Workload, NotRead>
    ensures checked { IfOk result (AreChecked text.now) }
    ensures refused { (r : RefusalAt) → result ≡ Err (Refused r) → IsRefused text.now r }
    ensures all_checked { (d : Definitions) → AreChecked text.now d → (result ≡ Ok d) ⊎ (result ≡ Err NoRoom) }
    ensures all_refused { (r : RefusalAt) → IsRefused text.now r → (result ≡ Err (Refused r)) ⊎ (result ≡ Err NoRoom) }
{
    from_text(alloc, text)
}

/// The line, counted from 1, that has the byte at this place. A line feed ends its line.
pub fn line_at(bytes: &[u8], place: usize) -> u32
    requires there { place ≤ length bytes.now }
    requires few { place < 2 ^ 32 - 1 }
    ensures { result ≡ line_of bytes.now place }
{
    let above = &bytes[..place];
    let feeds = above.iter().filter(|b| **b == b'\n').count();
    feeds as u32 + 1
}

fn from_bytes(alloc: Global, bytes: &[u8]) -> Result<Workload, NotRead>
    requires { length bytes.now < 2 ^ 32 }
    ensures { IsReading bytes.now result }
{
    match str::from_utf8(bytes) {
        Ok(text) => from_text(alloc, text),
        Err(fault) => Err(refused(line_at(bytes, fault.valid_up_to()), RefusalKind::BadChar)),
    }
}

fn from_text(alloc: Global, text: &str) -> Result<Workload, NotRead>
    ensures { IsReading text.now result }
{
    match tokens(alloc, text) {
        Ok(tokens) => from_tokens(alloc, text, &tokens),
        Err(fault) => Err(lexed(fault)),
    }
}

fn from_tokens(alloc: Global, text: &str, tokens: &Tokens) -> Result<Workload, NotRead>
    requires { tokens_of text.now ≡ Ok tokens.now }
    ensures { IsReading text.now result }
{
    match parse(alloc, text, tokens) {
        Ok(defs) => from_defs(alloc, defs),
        Err(SyntaxFault::Expected(line)) => Err(refused(line, RefusalKind::Expected)),
        Err(SyntaxFault::LeftOut(line)) => Err(refused(line, RefusalKind::LeftOut)),
        Err(SyntaxFault::NotBuilt(_)) => unreachable!(),
        Err(SyntaxFault::NoMemory) => Err(NotRead::NoMemory),
    }
}

fn from_defs(alloc: Global, defs: Defs) -> Result<Workload, NotRead>
    ensures { IsChecking defs result }
{
    match check_whole(alloc, defs) {
        Ok(workload) => Ok(workload),
        Err(fault) => Err(checked(fault)),
    }
}
