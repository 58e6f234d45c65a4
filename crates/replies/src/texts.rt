//! The lines of refusals and of limits.
ghost use Rattle.std.specs.Prelude.{◌≡◌, ◌++◌, IfOk, OnOk};
ghost use Rattle.replies.specs.Texts as spec;

use base_types::{Bytes, Items, LimitName, NoMemory};
use std::alloc::Global;
use std::io::{self, Write};

fn write_refusal(out: &mut Vec<u8>, what: &str, line: u32, kind: &str) -> io::Result<()>
    ensures { OnOk result (out.new.items ≡ out.old.items ++ spec.refusal_of what.now line kind.now) }
{
    write!(out, "{what} refused: line {line} {kind}\n")
}

fn write_limit(out: &mut Vec<u8>, name: &str, number: u32) -> io::Result<()>
    ensures { OnOk result (out.new.items ≡ out.old.items ++ spec.limit_line name.now number) }
{
    write!(out, "limit: {name} {number}\n")
}

/// What is refused, at which line, counted from 1, and why.
pub fn refusal_text(alloc: Global, what: &str, line: u32, kind: &str) -> Result<Bytes, NoMemory>
    ensures { IfOk result (λ text. text ≡ spec.refusal_of what.now line kind.now) }
{
    let mut out = Vec::new(alloc);
    match write_refusal(&mut out, what, line, kind) {
        Ok(()) => Ok(Items::of_vec(out)),
        Err(_) => Err(NoMemory),
    }
}

/// A limit that is passed, or that refuses a step, with its number.
pub fn limit_text(alloc: Global, name: LimitName, number: u32) -> Result<Bytes, NoMemory>
    ensures { IfOk result (λ text. text ≡ spec.limit_line (spec.limit_word name) number) }
{
    let mut out = Vec::new(alloc);
    match write_limit(&mut out, limit_word(name), number) {
        Ok(()) => Ok(Items::of_vec(out)),
        Err(_) => Err(NoMemory),
    }
}

fn limit_word(name: LimitName) -> &'static str
    ensures { result.now ≡ spec.limit_word name }
{
    match name {
        LimitName::Input => "input",
        LimitName::Steps => "steps",
        LimitName::Packets => "packets",
        LimitName::Bytes => "bytes",
        LimitName::Plan => "plan",
        LimitName::Entry => "entry",
        LimitName::File => "file",
        LimitName::Places => "places",
    }
}
