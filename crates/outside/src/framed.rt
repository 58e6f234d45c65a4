// A body made ready to be kept.
ghost use Rattle.std.specs.Prelude.{◌≡◌, ◌+◌, ◌≤◌, ◌<◌, ◌↔◌, ◌++◌, length, IfOk, IfErr};
ghost use Rattle.std.specs.Result.{IsErrOf};
ghost use Rattle.outside.specs.Records.{piece_of, longest_body};
ghost use Rattle.outside.specs.declared.framed.FrameFault.TheVariants.{TooLong, NoMemory as NoRoom};

use base_types::{Bytes, Growing, LONGEST_ENTRY, NoMemory};
use std::alloc::Global;
use std::marker::Model;

/// Why a body was not framed.
#[derive(Clone, Copy)]
pub enum FrameFault {
    /// It has more than 4,194,304 bytes.
    TooLong,
    NoMemory,
}

impl From<NoMemory> for FrameFault {
    ghost from_gives = { λ _ fault. fault ≡ NoRoom };

    fn from(_error: NoMemory) -> FrameFault {
        FrameFault::NoMemory
    }
}

/// A body with all that is written for it in one piece, so that keeping it takes no memory. Contracts see the body.
#[derive(Drop)]
pub struct Framed {
    piece: Bytes,
}

impl Model for Framed {
    ghost use Rattle.std.specs.Prelude.{◌≡◌, ◌≤◌, ◌-◌, List, ℕ, length, take, drop};
    ghost use Rattle.outside.specs.Records.{piece_of, longest_body};

    ghost Value = { List ℕ };

    ghost view = { λ f. take (length f.piece - 5) (drop 4 f.piece) };

    ghost invariant = { λ f. (f.piece ≡ piece_of (take (length f.piece - 5) (drop 4 f.piece)))
        × (length (take (length f.piece - 5) (drop 4 f.piece)) ≤ longest_body) };
}

impl Framed {
    /// Makes the piece of a body. TooLong exactly where it has more than 4,194,304 bytes.
    pub fn of(alloc: Global, body: &[u8]) -> Result<Framed, FrameFault>
        ensures body { IfOk result (λ f. f ≡ body.now) }
        ensures long { IsErrOf result TooLong ↔ (longest_body < length body.now) }
    {
        if body.len() > LONGEST_ENTRY as usize {
            return Err(FrameFault::TooLong);
        }
        let mut list = Growing::new(alloc);
        list.reserve((body.len() + 5) as u32)?;
        let length = body.len() as u32;
        fill(&mut list, &length.to_be_bytes());
        fill(&mut list, body);
        list.put(0);
        Ok(Framed {
            piece: list.into_items(),
        })
    }

    /// The length, the body and a closed gate.
    pub fn piece(&self) -> &[u8]
        ensures piece { result.now ≡ piece_of self.now }
        ensures short { length self.now ≤ longest_body }
    {
        self.piece.as_slice()
    }
}

/// Adds bytes for which there is room.
fn fill(list: &mut Growing<u8>, bytes: &[u8])
    requires { length bytes.now ≤ list.old.spare }
    ensures items { list.new.items ≡ list.old.items ++ bytes.now }
    ensures less { list.new.spare + length bytes.now ≡ list.old.spare }
{
    for byte in bytes {
        list.put(*byte);
    }
}
