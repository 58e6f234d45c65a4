//! Conditions as text.
ghost use Rattle.std.specs.Prelude.{◌≡◌, ◌≢◌, ◌++◌, ◌+◌, ◌≤◌, ◌<◌, ◌↔◌, IsTrue, List, [], length, codes, IfOk, OnOk};
ghost use Rattle.std.specs.String.{string_bytes};
ghost use Rattle.model.specs.Types.{CondOp as Operation};
ghost use Rattle.rc_conditions.specs.Answers.{IsCondition};
ghost use Rattle.rc_conditions.specs.Expressions.{Expression as Tree, compared, IsPostfix, NumbersFit, postfix};
ghost use Rattle.rc_conditions.specs.Expressions as shape;
ghost use Rattle.rc_conditions.specs.Printing as spec;
ghost use Rattle.rc_conditions.specs.Printing.{printed};

use crate::MOST;
use base_types::{Cond, CondOp, NoMemory, Rel, Text};
use std::alloc::{AllocError, Global};

/// The canonical text of a condition, as `(RC > 0) AND (NOT (RC = 4))`. That of the empty one is `RC = 0`.
///
/// Another list that is no postfix expression or has more than 64 operations has the empty text.
pub fn print_cond(alloc: Global, cond: &Cond) -> Result<Text, NoMemory>
    ensures default { cond.now ≡ [] → IfOk result (λ t. t ≡ codes "RC = 0") }
    ensures canonical { (e : Tree) → cond.now ≡ postfix e → length cond.now ≤ 64 → IfOk result (λ t. t ≡ printed e) }
    ensures read_back { IsPostfix cond.now → length cond.now ≤ 64 → IfOk result (λ t. IsCondition t cond.now) }
    ensures no_expression { cond.now ≢ [] → ¬ (IsPostfix cond.now) → IfOk result (λ t. t ≡ []) }
    ensures too_long { 64 < length cond.now → IfOk result (λ t. t ≡ []) }
{
    if cond.is_empty() {
        return Text::of(alloc, "RC = 0");
    }
    if cond.len() > MOST || !is_postfix(cond.as_slice()) {
        return Ok(Text::new(alloc));
    }
    let mut out = String::new(alloc);
    write_expression(&mut out, cond.as_slice())?;
    Ok(Text::from_string(out))
}

/// Writes a postfix expression.
fn write_expression(out: &mut String, ops: &[CondOp]) -> Result<(), AllocError>
    ensures text { OnOk result ((e : Tree) → ops.now ≡ postfix e →
        string_bytes out.new ≡ string_bytes out.old ++ printed e) }
    ensures numbers { OnOk result ((e : Tree) → ops.now ≡ postfix e → NumbersFit e) }
{
    let [before @ .., last] = ops else {
        return Ok(());
    };
    let joint = match *last {
        CondOp::Cmp(rel, n) => {
            write_comparison(out, rel, n)?;
            return Ok(());
        }
        CondOp::Not => {
            out.push_str("NOT (")?;
            write_expression(out, before)?;
            out.push_str(")")?;
            return Ok(());
        }
        CondOp::And => ") AND (",
        CondOp::Or => ") OR (",
    };
    let (left, right) = two_expressions(before);
    out.push_str("(")?;
    write_expression(out, left)?;
    out.push_str(joint)?;
    write_expression(out, right)?;
    out.push_str(")")?;
    Ok(())
}

fn write_comparison(out: &mut String, rel: Rel, n: i32) -> Result<(), AllocError>
    ensures { OnOk result (string_bytes out.new ≡ string_bytes out.old ++ printed (compared rel n)) }
{
    write!(out, "RC {} {n}", mark(rel))
}

fn mark(rel: Rel) -> &'static str
    ensures { result.now ≡ spec.mark rel }
{
    match rel {
        Rel::Eq => "=",
        Rel::Ne => "!=",
        Rel::Lt => "<",
        Rel::Le => "<=",
        Rel::Gt => ">",
        Rel::Ge => ">=",
    }
}

/// Whether each operation has what it joins before it, and one result is left.
fn is_postfix(ops: &[CondOp]) -> bool
    requires { length ops.now ≤ 64 }
    ensures { IsTrue result ↔ IsPostfix ops.now }
{
    let mut results = 0;
    for op in ops {
        let joined = arity(*op);
        if results < joined {
            return false;
        }
        results = results - joined + 1;
    }
    results == 1
}

/// How many results an operation joins.
fn arity(op: CondOp) -> usize
    ensures value { result ≡ shape.arity op }
    ensures few { result ≤ 2 }
{
    match op {
        CondOp::Cmp(_, _) => 0,
        CondOp::Not => 1,
        CondOp::And | CondOp::Or => 2,
    }
}

/// Two postfix expressions that stand one behind the other.
fn two_expressions(ops: &[CondOp]) -> (&[CondOp], &[CondOp])
    ensures both { (e f : Tree) → ops.now ≡ postfix e ++ postfix f →
        (result.0.now ≡ postfix e) × (result.1.now ≡ postfix f) }
    ensures first_within { length result.0.now ≤ length ops.now }
    ensures second_within { length result.1.now ≤ length ops.now }
{
    ops.split_at(last_begins(ops))
}

/// Where the last of several postfix expressions begins.
fn last_begins(ops: &[CondOp]) -> usize
    ensures within { result ≤ length ops.now }
    ensures last { (front : List Operation) → (e : Tree) → ops.now ≡ front ++ postfix e → result ≡ length front }
{
    let mut rest = ops;
    let mut missing: usize = 1;
    while missing > 0 {
        let [before @ .., last] = rest else {
            return 0;
        };
        missing = missing - 1 + arity(*last);
        rest = before;
    }
    rest.len()
}
