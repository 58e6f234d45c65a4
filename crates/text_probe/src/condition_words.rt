//! Conditions read, printed and asked.
use crate::outs::Out;
use base_types::{Cond, CondOp, Items, Rel};
use rc_conditions::{CondFault, holds, print_cond, read_cond};
use std::alloc::Global;
use syntax::{first_word, number_i32};

fn read(alloc: Global, text: &str) -> Result<Cond, CondFault> {
    if text.len() > 100_000 {
        return Err(CondFault::NoMemory);
    }
    read_cond(alloc, text)
}

fn put_cond(out: &mut Out, cond: &Cond) {
    let text = print_cond(out.alloc, cond);
    if let Some(text) = out.kept(text) {
        out.word(text.as_str());
    }
}

/// `read_cond TEXT`: the canonical text.
pub fn put_canonical(out: &mut Out, text: &str) {
    match read(out.alloc, text) {
        Ok(cond) => put_cond(out, &cond),
        Err(fault) => out.debug("", &fault),
    }
}

/// `holds RC TEXT`
pub fn put_holds(out: &mut Out, text: &str) {
    let (rc, rest) = first_word(text);
    match read(out.alloc, rest) {
        Ok(cond) => out.show("", &holds(&cond, number_i32(rc).unwrap_or(0))),
        Err(fault) => out.debug("", &fault),
    }
}

/// `not`, `and`, `or`, or the number with which a return code is compared by `>=`.
fn operation(word: &str) -> CondOp {
    match word {
        "not" => CondOp::Not,
        "and" => CondOp::And,
        "or" => CondOp::Or,
        _ => CondOp::Cmp(Rel::Ge, number_i32(word).unwrap_or(0)),
    }
}

fn operations(out: &mut Out, text: &str) -> Cond {
    let mut cond = Items::new(out.alloc);
    for word in text.split(' ') {
        if !word.is_empty() {
            let done = cond.push(operation(word));
            out.done(done);
        }
    }
    cond
}

/// `postfix RC OPERATIONS`: how many operations there are, whether they hold, and their canonical text.
pub fn put_postfix(out: &mut Out, text: &str) {
    let (rc, rest) = first_word(text);
    let cond = operations(out, rest);
    let met = holds(&cond, number_i32(rc).unwrap_or(0));
    out.two("", &cond.len(), " ", &met);
    out.word(" ");
    put_cond(out, &cond)
}
