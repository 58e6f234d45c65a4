//! Composer text: its tokens, what its definitions say, and their canonical text.
use crate::arguments::put_made;
use crate::defined_texts::put_defs;
use crate::outs::Out;
use base_types::Token;
use composer_lexer::{LexFault, tokens};
use composer_parser::{Defs, SyntaxFault, parse};
use composer_print::print_defs;
use std::alloc::Global;

fn put_all(out: &mut Out, found: &[Token]) {
    for token in found {
        out.debug("", &token.kind);
        out.show(" ", &token.line);
        out.two(" ", &token.start, " ", &token.end);
        out.word(";");
    }
}

/// `tokens TEXT`: each by its kind, its line, and where it begins and ends.
pub fn put_tokens(out: &mut Out, text: &str) {
    match tokens(out.alloc, text) {
        Ok(found) => put_all(out, found.as_slice()),
        Err(fault) => out.show("", &fault),
    }
}

/// Definitions that were read. Dropping them is a call for whoever owns them.
struct Parsed {
    defs: Defs,
}

impl Drop for Parsed {
    fn drop(self) {
        let Parsed { defs: _defs } = self;
    }
}

/// Why a text has no definitions.
#[derive(Clone, Copy)]
enum NotRead {
    Tokens(LexFault),
    Syntax(SyntaxFault),
}

fn read(alloc: Global, text: &str) -> Result<Parsed, NotRead> {
    match tokens(alloc, text) {
        Ok(found) => match parse(alloc, text, &found) {
            Ok(defs) => Ok(Parsed { defs }),
            Err(fault) => Err(NotRead::Syntax(fault)),
        },
        Err(fault) => Err(NotRead::Tokens(fault)),
    }
}

fn put_counts(out: &mut Out, defs: &Defs) {
    out.two("", &defs.cpus.len(), " ", &defs.domains.len());
    out.two(" ", &defs.calendars.len(), " ", &defs.prompts.len());
    out.two(" ", &defs.resources.len(), " ", &defs.jobs.len());
    out.show(" ", &defs.schedules.len())
}

fn put_asked(out: &mut Out, word: &str, defs: &Defs) {
    match word {
        "parse" => put_defs(out, defs),
        "counts" => put_counts(out, defs),
        _ => {
            let made = print_defs(out.alloc, defs);
            let made = out.kept(made);
            put_made(out, made)
        }
    }
}

/// `parse TEXT`: each definition behind its line. `counts TEXT`: how many workstations, domains, calendars, prompts,
/// resources, jobs and streams there are. `print_defs TEXT`: the canonical text.
pub fn put_read(out: &mut Out, word: &str, text: &str) {
    match read(out.alloc, text) {
        Ok(parsed) => put_asked(out, word, &parsed.defs),
        Err(NotRead::Tokens(fault)) => out.debug("", &fault),
        Err(NotRead::Syntax(fault)) => out.debug("", &fault),
    }
}
