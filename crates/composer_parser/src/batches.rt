//! Pieces that stand one behind the other.
ghost use Rattle.std.specs.Prelude.{◌≡◌, ◌++◌, [], true, false, OnOk};
ghost use Rattle.composer_parser.specs.Parts.{any_number};
ghost use Rattle.composer_parser.specs.Reading.{read, decided, empty};
ghost use Rattle.composer_parser.specs.Tokens.{all_spelled, Gives};

use crate::gathering::{Gathers, gather};
use crate::pieces::Begins;
use crate::stops::Stop;
use base_types::{Items, NoMemory, Token};
use std::alloc::Global;
use std::marker::Model;

/// Items that were read together, whose contracts see the items alone.
#[derive(Drop)]
pub(crate) struct Batch<T> {
    items: Vec<T>,
}

impl<T> Model for Batch<T> {
    ghost use Rattle.std.specs.Prelude.{List};

    ghost Value = { List T };

    ghost view = { λ batch. batch.items.items };
}

impl<T> Batch<T> {
    fn new(alloc: Global) -> Self
        ensures { result ≡ [] }
    {
        Batch {
            items: Vec::new(alloc),
        }
    }

    /// The items as a list, which takes no memory.
    pub(crate) fn into_items(self) -> Items<T>
        ensures { result ≡ self }
    {
        Items::of_vec(self.items)
    }

    /// Puts the items behind a list. Where memory runs out the list may have some of them.
    pub(crate) fn append_to(self, all: &mut Items<T>) -> Result<(), NoMemory>
    where
        T: Drop,
        ensures { OnOk result (all.new ≡ all.old ++ self) }
    {
        append(self.items, all)
    }
}

fn append<T: Drop>(items: Vec<T>, all: &mut Items<T>) -> Result<(), NoMemory>
    ensures { OnOk result (all.new ≡ all.old ++ items.items) }
{
    for item in items {
        all.push(item)?;
    }
    Ok(())
}

impl<T: Begins> Gathers for Batch<T> {
    ghost use Rattle.composer_parser.specs.Parts.{put, always};

    type Part = T;

    ghost part_grammar = { T.grammar };

    ghost next_state = { put };

    ghost may_begin = { always };

    #[tactic(auto, using(crate::proofs::Loops::begins_always))]
    fn goes_on(&self, text: &str, rest: &[Token]) -> bool {
        T::begins(text, rest)
    }

    fn read_part<'a>(
        alloc: Global,
        text: &str,
        rest: &'a [Token],
    ) -> Result<(T, &'a [Token]), Stop> {
        T::read(alloc, text, rest)
    }

    fn take(&mut self, part: T) -> Result<(), NoMemory> {
        self.items.push(part)?;
        Ok(())
    }
}

/// All of a kind that stand here one behind the other.
pub(crate) fn row<'a, T: Begins>(
    alloc: Global,
    text: &str,
    rest: &'a [Token],
) -> Result<(Batch<T>, &'a [Token]), Stop>
    requires decided { decided T.grammar ≡ true }
    requires some { empty T.grammar ≡ false }
    ensures { Gives (λ x. x.0) (λ x. x.1.now) text.now result (read (any_number T.grammar) (all_spelled text.now rest.now)) }
{
    gather(alloc, text, rest, Batch::new(alloc))
}
