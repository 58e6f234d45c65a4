//! Places in groups.
use crate::asked::Asked;
use crate::outs::Out;
use base_types::NoMemory;
use grouped_places::{Groups, place_in};

fn place(asked: &Asked) -> usize {
    usize::try_from(asked.number(1)).unwrap_or(usize::MAX)
}

/// Answers what is asked of groups, and tells whether something is.
pub fn ask_groups(groups: &mut Groups, out: &mut Out, asked: &Asked) -> bool {
    if asked.is("add-place", 2) {
        match groups.add(asked.count(0), place(asked)) {
            Ok(()) => out.word("added"),
            Err(NoMemory) => out.word("refused"),
        }
    } else if asked.is("remove-place", 2) {
        groups.remove(asked.count(0), place(asked));
        out.word("removed");
    } else if asked.is("places", 1) {
        let group = asked.count(0);
        out.word("places");
        for code in groups.of(group) {
            out.show(" ", &place_in(group, *code));
        }
    } else {
        return false;
    }
    true
}
