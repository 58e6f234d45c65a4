//! Why definitions are refused.
ghost use Rattle.std.specs.Prelude.{◌≡◌};
ghost use Rattle.definition_faults.specs.declared.faults.DefFault.TheVariants.{NoMemory as NoRoom};
ghost use Rattle.definition_faults.specs.Orders as spec;

use crate::kinds::{Fault, Kind};
use base_types::NoMemory;

/// Why definitions are refused, with the line.
#[derive(Clone, Copy)]
pub enum DefFault {
    /// A name is defined twice in its kind.
    Duplicate(u32),
    /// A name stands for nothing.
    UnknownName(u32),
    /// A number is outside its range, a text is not of its form, or there are too many of a kind.
    OutOfRange(u32),
    /// A NEEDS is on another workstation than its object.
    ForeignResource(u32),
    /// Streams or jobs follow each other in a circle.
    FollowsCycle(u32),
    /// The domains are no tree with one master.
    Tree(u32),
    /// There was no memory.
    NoMemory,
}

impl From<NoMemory> for DefFault {
    ghost from_gives = { λ _ fault. fault ≡ NoRoom };

    fn from(_error: NoMemory) -> DefFault {
        DefFault::NoMemory
    }
}

impl From<Fault> for DefFault {
    ghost use Rattle.definition_faults.specs.Orders.{told};

    ghost from_gives = { λ found fault. fault ≡ told found };

    fn from(found: Fault) -> DefFault {
        let line = found.line;
        match found.kind {
            Kind::Duplicate => DefFault::Duplicate(line),
            Kind::UnknownName => DefFault::UnknownName(line),
            Kind::OutOfRange => DefFault::OutOfRange(line),
            Kind::ForeignResource => DefFault::ForeignResource(line),
            Kind::FollowsCycle => DefFault::FollowsCycle(line),
            Kind::Tree => DefFault::Tree(line),
        }
    }
}
