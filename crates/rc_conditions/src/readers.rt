//! A condition as far as it was read, and its next token.
ghost use Rattle.std.specs.Prelude.{◌≡◌, List, [], ◌∷◌, drop, length, ◌==◌, slice_get, option_and_then, IfOk, OnOk};
ghost use Rattle.std.specs.Prelude.{IfErr, ◌⊎◌, ◌^◌, ◌<◌, Err};
ghost use Rattle.model.specs.Types.{CondOp as Operation};
ghost use Rattle.rc_conditions.specs.declared.CondFault.TheVariants.{NoMemory as NoRoom};
ghost use Rattle.rc_conditions.specs.Machine as spec;
ghost use Rattle.rc_conditions.specs.Machine.{parts, reader, settled, step, ended, start};

use crate::tokens::Token;
use crate::{CondFault, MOST};
use base_types::{Cond, CondOp, Items, NoMemory, Rel};
use std::alloc::Global;
use std::marker::Model;

/// What joins two operands.
#[derive(Clone, Copy)]
pub(crate) enum Joint {
    And,
    Or,
}

/// What waits for an operand, or for the end of its parentheses.
#[derive(Clone, Copy)]
pub(crate) enum Pending {
    Open,
    Not,
    And,
    Or,
}

/// What the next token has to be.
#[derive(Clone, Copy)]
pub(crate) enum Wanted {
    Operand,
    /// The comparison behind `RC`.
    Relation,
    /// The number behind a comparison.
    Number(Rel),
    /// What comes behind an operand.
    Joint,
}

/// What waits, the newest first.
#[derive(Drop)]
pub(crate) struct Waiting {
    items: Vec<Pending>,
}

impl Model for Waiting {
    ghost use Rattle.std.specs.Prelude.{List, reverse};
    ghost use Rattle.rc_conditions.specs.declared.readers.Pending.{Pending as One};

    ghost Value = { List One };

    ghost view = { λ w. reverse w.items.items };
}

impl Waiting {
    fn new(alloc: Global) -> Self
        ensures { result ≡ [] }
    {
        Waiting {
            items: Vec::new(alloc),
        }
    }

    fn is_empty(&self) -> bool
        ensures { result ≡ (length self.now == 0) }
    {
        self.items.is_empty()
    }

    fn push(&mut self, pending: Pending) -> Result<(), NoMemory>
        ensures { OnOk result (self.new ≡ pending ∷ self.old) }
    {
        self.items.push(pending)?;
        Ok(())
    }

    /// Takes the newest. None where nothing waits.
    fn pop(&mut self) -> Option<Pending>
        ensures newest { result ≡ slice_get self.old 0 }
        ensures others { self.new ≡ drop 1 self.old }
    {
        self.items.pop()
    }

    /// The operation of the newest, where the joint lets it go first.
    fn due_before(&self, joint: Joint) -> Option<CondOp>
        ensures { result ≡ option_and_then (spec.due_before joint) (slice_get self.now 0) }
    {
        due_before(joint, *self.items.last()?)
    }
}

/// The operation that a joint lets go first, since it binds at least as closely. None where it waits on.
fn due_before(joint: Joint, pending: Pending) -> Option<CondOp>
    ensures { result ≡ spec.due_before joint pending }
{
    match pending {
        Pending::Open => None,
        Pending::Not => Some(CondOp::Not),
        Pending::And => Some(CondOp::And),
        Pending::Or => match joint {
            Joint::And => None,
            Joint::Or => Some(CondOp::Or),
        },
    }
}

/// A condition as far as it was read.
#[derive(Drop)]
pub(crate) struct Reader {
    wanted: Wanted,
    waiting: Waiting,
    ops: Cond,
}

impl Reader {
    /// Nothing was read yet.
    pub(crate) fn new(alloc: Global) -> Self
        ensures { result ≡ start }
    {
        Reader {
            wanted: Wanted::Operand,
            waiting: Waiting::new(alloc),
            ops: Items::new(alloc),
        }
    }

    /// The reader behind one token more. None where no condition goes on with it.
    pub(crate) fn take(self, token: Token) -> Result<Option<Reader>, NoMemory>
        ensures { IfOk result (λ o. o ≡ step self token) }
    {
        let mut reader = self;
        match reader.wanted {
            Wanted::Operand => reader.take_operand(token),
            Wanted::Relation => match token {
                Token::Compare(rel) => {
                    reader.wanted = Wanted::Number(rel);
                    Ok(Some(reader))
                }
                _ => Ok(None),
            },
            Wanted::Number(rel) => match token {
                Token::Number(n) => {
                    reader.ops.push(CondOp::Cmp(rel, n))?;
                    reader.wanted = Wanted::Joint;
                    Ok(Some(reader))
                }
                _ => Ok(None),
            },
            Wanted::Joint => reader.take_joint(token),
        }
    }

    /// The same where an operand is wanted.
    fn take_operand(self, token: Token) -> Result<Option<Reader>, NoMemory>
        ensures { IfOk result (λ o. o ≡ spec.step_at Wanted.Operand (parts self.waiting self.ops) token) }
    {
        let mut reader = self;
        match token {
            Token::Rc => {
                reader.wanted = Wanted::Relation;
                Ok(Some(reader))
            }
            Token::Not => {
                reader.waiting.push(Pending::Not)?;
                reader.wanted = Wanted::Operand;
                Ok(Some(reader))
            }
            Token::Open => {
                reader.waiting.push(Pending::Open)?;
                reader.wanted = Wanted::Operand;
                Ok(Some(reader))
            }
            _ => Ok(None),
        }
    }

    /// The same behind an operand.
    fn take_joint(self, token: Token) -> Result<Option<Reader>, NoMemory>
        ensures { IfOk result (λ o. o ≡ spec.step_at Wanted.Joint (parts self.waiting self.ops) token) }
    {
        let mut reader = self;
        match token {
            Token::And => {
                reader.settle(Joint::And)?;
                reader.waiting.push(Pending::And)?;
                reader.wanted = Wanted::Operand;
                Ok(Some(reader))
            }
            Token::Or => {
                reader.settle(Joint::Or)?;
                reader.waiting.push(Pending::Or)?;
                reader.wanted = Wanted::Operand;
                Ok(Some(reader))
            }
            Token::Close => {
                reader.settle(Joint::Or)?;
                let Some(Pending::Open) = reader.waiting.pop() else {
                    return Ok(None);
                };
                reader.wanted = Wanted::Joint;
                Ok(Some(reader))
            }
            _ => Ok(None),
        }
    }

    /// Puts all that a joint lets go first behind the operations.
    fn settle(&mut self, joint: Joint) -> Result<(), NoMemory>
        ensures { OnOk result (self.new ≡ reader self.old.wanted (settled joint self.old.waiting self.old.ops)) }
    {
        while let Some(op) = self.waiting.due_before(joint) {
            let _ = self.waiting.pop();
            self.ops.push(op)?;
        }
        Ok(())
    }

    /// The whole condition, where the text ends here, at this place.
    pub(crate) fn end(self, place: u32) -> Result<Cond, CondFault>
        ensures { (result ≡ ended self place) ⊎ (result ≡ Err NoRoom) }
    {
        let mut reader = self;
        let Wanted::Joint = reader.wanted else {
            return Err(CondFault::Bad(place));
        };
        reader.settle(Joint::Or)?;
        if !reader.waiting.is_empty() {
            return Err(CondFault::Bad(place));
        }
        if reader.ops.len() > MOST {
            return Err(CondFault::TooLong);
        }
        Ok(reader.ops)
    }
}
