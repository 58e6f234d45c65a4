//! Histories as texts.
ghost use Rattle.model.specs.Fit.{AreFitEntries};

use crate::arguments::put_made;
use crate::outs::Out;
use history_script::{HistoryText, print_history, read_history};

/// Writes the text of a history. Its entries are fit, as those of each history that was read.
fn put_printed(out: &mut Out, history: &HistoryText)
    requires { AreFitEntries history.now.entries }
{
    let made = print_history(
        out.alloc,
        &history.net,
        history.entries.as_slice(),
        history.starts.as_slice(),
    );
    let made = out.kept(made);
    put_made(out, made)
}

/// `print_history TEXT`: the text of the history that this is.
pub fn put_history(out: &mut Out, text: &str) {
    if text.len() > 4096 {
        return out.unknown();
    }
    match read_history(out.alloc, text) {
        Ok(history) => put_printed(out, &history),
        Err(fault) => out.debug("", &fault),
    }
}
