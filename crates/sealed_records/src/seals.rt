//! The records of one direction.
ghost use Rattle.std.specs.Prelude.{◌≡◌, ◌++◌, ◌+◌, ◌<◌, ◌≤◌, ◌^◌, ◌↔◌, List, ℕ, [], length, OnErr, OnOk};
ghost use Rattle.std.specs.Result.{IsErrOf};
ghost use Rattle.sealed_records.specs.Records.{IsTooMany, Takes, begun, code_of_record, next, record_of};
ghost use Rattle.sealed_records.specs.declared.seals.Unput.TheVariants.{TooMany, NoMemory as NoRoom};

use crate::queues::Queue;
use keyed_hash::{CODE, are_same, code_of};
use std::alloc::AllocError;
use std::marker::Model;

/// The most bytes that one record has.
pub const MOST_IN_RECORD: usize = 16_384;

/// How many bytes tell the length of a record.
const LENGTH: usize = 2;

/// One end of a direction: the key of its codes, and how many records there were before.
#[derive(Drop)]
pub struct Seal {
    key: [u8; CODE],
    count: u64,
}

impl Model for Seal {
    ghost use Rattle.sealed_records.specs.Records.{Direction};

    ghost Value = { Direction };

    ghost view = { λ s. record { key = s.key; number = s.count } };
}

/// Why a record could not be put. It was not counted.
#[derive(Drop)]
pub enum Unput {
    /// It has more than 16,384 bytes, or there were 2^64 - 1 records before. What waits is as it was.
    TooMany,
    /// There was no memory for it. A front of it may wait: put nothing behind it.
    NoMemory,
}

impl From<AllocError> for Unput {
    ghost from_gives = { λ _ why. why ≡ NoRoom };

    fn from(_: AllocError) -> Self {
        Unput::NoMemory
    }
}

/// What was taken of what has come.
#[derive(Drop)]
pub enum Taken {
    Record,
    /// The next record is not there whole, and what is there of it is not wrong.
    Nothing,
    /// What comes next has more than 16,384 bytes, or another code, or there were 2^64 - 1 records before.
    Wrong,
    /// There was no memory for it; it is still to be taken.
    NoMemory,
}

impl Seal {
    /// A direction without records, whose codes are made with this key.
    pub fn new(key: [u8; CODE]) -> Self
        ensures { result ≡ begun key }
    {
        Seal { key, count: 0 }
    }

    /// The code of the next record, by its length and its bytes.
    fn code(&self, told: &[u8]) -> [u8; CODE]
        ensures { result ≡ code_of_record self.now told.now }
    {
        code_of(&self.key, &self.count.to_be_bytes(), told)
    }

    /// Puts the next record, with these bytes, behind those that wait.
    pub fn put(&mut self, bytes: &[u8], out: &mut Queue) -> Result<(), Unput>
        ensures put { OnOk result (out.new ≡ out.old ++ record_of self.old bytes.now) }
        ensures counted { OnOk result (self.new ≡ next self.old) }
        ensures short { OnOk result (length bytes.now ≤ 16384) }
        ensures refused { IsErrOf result TooMany ↔ IsTooMany self.old bytes.now }
        ensures untouched { IsErrOf result TooMany → out.new ≡ out.old }
        ensures same { OnErr result (self.new ≡ self.old) }
        ensures front { OnErr result ((more rest : List ℕ) × (out.new ≡ out.old ++ more)
            × (record_of self.old bytes.now ≡ more ++ rest)) }
    {
        if bytes.len() > MOST_IN_RECORD || self.count == u64::MAX {
            return Err(Unput::TooMany);
        }
        let length = (bytes.len() as u16).to_be_bytes();
        let before = out.rest().len();
        out.put(&length)?;
        out.put(bytes)?;
        let code = self.code(&out.rest()[before..]);
        out.put(&code)?;
        self.count += 1;
        Ok(())
    }

    /// Takes the next record of what has come, once it is there whole, and adds its bytes to those that were taken.
    pub fn take(&mut self, come: &mut Queue, taken: &mut Vec<u8>) -> Taken
        ensures { Takes self.old come.old taken.old.items result self.new come.new taken.new.items }
    {
        let [a, b, ..] = come.rest() else {
            return Taken::Nothing;
        };
        let count = usize::from(u16::from_be_bytes([*a, *b]));
        if count > MOST_IN_RECORD || self.count == u64::MAX {
            return Taken::Wrong;
        }
        let rest = come.rest();
        if rest.len() < LENGTH + count + CODE {
            return Taken::Nothing;
        }
        let (told, behind) = rest.split_at(LENGTH + count);
        let Some(code) = behind.first_chunk::<CODE>() else {
            return Taken::Nothing;
        };
        if !are_same(&self.code(told), code) {
            return Taken::Wrong;
        }
        if taken.extend_from_slice(&told[LENGTH..]).is_err() {
            return Taken::NoMemory;
        }
        self.count += 1;
        come.skip(LENGTH + count + CODE);
        Taken::Record
    }
}
