//! Conditions asked of a return code.
ghost use Rattle.std.specs.Prelude.{◌≡◌, ◌+◌, ◌≤◌, ◌<◌, ℤ, List, [], ◌∷◌, length, drop, slice_get, true, false};
ghost use Rattle.model.specs.Conditions as spec;
ghost use Rattle.model.specs.Conditions.{meets, result_of};
ghost use Rattle.model.specs.Types.{CondOp as Operation};

use crate::MOST;
use base_types::{Cond, CondOp, Rel};
use std::marker::Model;

/// Whether the condition holds of a return code. The empty one asks for 0.
///
/// It takes no memory. False for another list that is no postfix expression or has more than 64 operations.
pub fn holds(cond: &Cond, rc: i32) -> bool
    ensures { result ≡ meets cond.now rc }
{
    if cond.is_empty() {
        return compares(Rel::Eq, rc, 0);
    }
    if cond.len() > MOST {
        return false;
    }
    let ops = cond.as_slice();
    let mut results = Results::new();
    for op in ops {
        if !results.apply(*op, rc) {
            return false;
        }
    }
    results.only()
}

fn compares(rel: Rel, a: i32, b: i32) -> bool
    ensures { result ≡ spec.compares rel a b }
{
    match rel {
        Rel::Eq => a == b,
        Rel::Ne => a != b,
        Rel::Lt => a < b,
        Rel::Le => a <= b,
        Rel::Gt => a > b,
        Rel::Ge => a >= b,
    }
}

/// The results so far, the newest first.
#[derive(Drop)]
struct Results {
    values: [bool; 64],
    count: usize,
}

impl Model for Results {
    ghost use Rattle.std.specs.Prelude.{List, Bool, ◌≤◌, take, reverse};

    ghost Value = { List Bool };

    ghost view = { λ r. reverse (take r.count r.values) };

    ghost invariant = { λ r. r.count ≤ 64 };
}

impl Results {
    fn new() -> Self
        ensures { length result ≡ 0 }
    {
        Results {
            values: [false; 64],
            count: 0,
        }
    }

    /// Carries out an operation. False where it lacks a result to work on.
    fn apply(&mut self, op: CondOp, rc: i32) -> bool
        requires { length self.old < 64 }
        ensures more { length self.new ≤ length self.old + 1 }
        ensures done { result ≡ true → (rest : List Operation) →
            result_of rc self.old (op ∷ rest) ≡ result_of rc self.new rest }
        ensures lacking { result ≡ false → (rest : List Operation) → result_of rc self.old (op ∷ rest) ≡ false }
    {
        match op {
            CondOp::Cmp(rel, n) => self.push(compares(rel, rc, n)),
            CondOp::Not => {
                let Some(a) = self.pop() else {
                    return false;
                };
                self.push(!a);
            }
            CondOp::And => {
                let (Some(b), Some(a)) = (self.pop(), self.pop()) else {
                    return false;
                };
                self.push(a && b);
            }
            CondOp::Or => {
                let (Some(b), Some(a)) = (self.pop(), self.pop()) else {
                    return false;
                };
                self.push(a || b);
            }
        }
        true
    }

    fn push(&mut self, value: bool)
        requires { length self.old < 64 }
        ensures { self.new ≡ value ∷ self.old }
    {
        self.values[self.count] = value;
        self.count += 1;
    }

    /// Takes the newest result. None where there is none.
    fn pop(&mut self) -> Option<bool>
        ensures newest { result ≡ slice_get self.old 0 }
        ensures others { self.new ≡ drop 1 self.old }
    {
        if self.count == 0 {
            return None;
        }
        self.count -= 1;
        Some(self.values[self.count])
    }

    /// The only result. False where there are others, or none.
    fn only(&self) -> bool
        ensures { (rc : ℤ) → result ≡ result_of rc self.now [] }
    {
        self.count == 1 && self.values[0]
    }
}
