//! Asks public functions of the layers of languages, bytes, plans, records and histories. The program `probes` writes what
//! they give, for the cases of the repository.
//!
//! A question is a line: a word, a space, and an argument up to the end of the line. The word names a function, and
//! the argument is what it is asked of; `\n`, `\r`, `\t`, `\\` and `\xNN` stand in it for a byte each. What the function
//! gives is written as one line, with `\n`, `\r` and `\\` for these bytes: a text as it is, or between `<` and `>` beside
//! others, bytes as digits in base 16, and numbers, marks and faults as Rust writes them. Nothing is promised of what is
//! written; the cases tell what must be. A line that is not understood is answered `no such question`.
#![tactic(auto)]

mod arguments;
mod calendar_words;
mod command_words;
mod condition_words;
mod defined_texts;
mod definition_words;
mod document_texts;
mod entry_words;
mod escapes;
mod field_words;
mod frame_words;
mod history_words;
mod outs;
mod record_words;
mod reply_words;
mod report_words;
mod row_texts;
mod text_words;
mod workload_words;

use arguments::numbers;
use calendars::{LAST_DAY, read_date};
use escapes::unescaped;
pub use outs::Out;
use plan_times::east_of;
use std::alloc::Global;
use std::str;
use syntax::{first_word, number_i32, number_u32, number_u64};

/// Answers what is asked of numbers, or else that the question is not understood.
fn tell_of_numbers(out: &mut Out, word: &str, numbers: &[u32]) {
    match word {
        "starts" => report_words::put_starts(out, numbers),
        "packets" => report_words::put_packets(out, numbers),
        "node" => report_words::put_node(out, numbers),
        "sample" => report_words::put_sample(out, numbers),
        "ack" => frame_words::put_ack(out, numbers),
        "day_of" => calendar_words::put_day_of(out, numbers),
        "last_day" => out.show("", &LAST_DAY),
        _ => reply_words::tell(out, word, numbers),
    }
}

fn tell_more(out: &mut Out, word: &str, text: &str) {
    let numbers = numbers(out, text);
    tell_of_numbers(out, word, numbers.as_slice())
}

fn tell_of_records(out: &mut Out, word: &str, text: &str) {
    match word {
        "read_rows" => record_words::put_rows(out, text),
        "are_in_range" => record_words::put_ranges(out, text),
        "record_fault" => record_words::put_record_fault(out, text),
        "read_script" => record_words::put_read(out, text),
        "print_history" => history_words::put_history(out, text),
        "dates" | "runs_on" | "workload" => workload_words::put_of_definitions(out, text),
        _ => tell_more(out, word, text),
    }
}

fn tell_of_plans(out: &mut Out, word: &str, text: &str) {
    match word {
        "read_date" => out.debug("", &read_date(text)),
        "east_of" => out.debug("", &east_of(text)),
        "days" => calendar_words::put_days(out, text),
        "free_days" => calendar_words::put_free_days(out, text),
        "nth_day" => calendar_words::put_nth_day(out, text),
        "moment" => calendar_words::put_moment(out, text),
        "shown" => reply_words::put_shown(out, text),
        "all_shown" => reply_words::put_all_shown(out, text),
        _ => tell_of_records(out, word, text),
    }
}

fn tell_of_reports(out: &mut Out, word: &str, text: &str) {
    match word {
        "read_entry" => entry_words::put_entry_of(out, text),
        "events" => entry_words::put_events(out, text),
        "summary" => report_words::put_summary(out, text),
        "stream_word" => report_words::put_stream_word(out, text),
        "job_word" => report_words::put_job_word(out, text),
        _ => tell_of_plans(out, word, text),
    }
}

fn tell_of_bytes(out: &mut Out, word: &str, text: &str) {
    match word {
        "take" => field_words::put_take(out, text),
        "put" => field_words::put_put(out, text),
        "feed" => frame_words::put_feed(out, text),
        "mail" => frame_words::put_mail(out, text),
        "command" => frame_words::put_command(out, text),
        "reply" => frame_words::put_reply(out, text),
        _ => tell_of_reports(out, word, text),
    }
}

fn tell_of_languages(out: &mut Out, word: &str, text: &str) {
    match word {
        "read_cond" => condition_words::put_canonical(out, text),
        "holds" => condition_words::put_holds(out, text),
        "postfix" => condition_words::put_postfix(out, text),
        "parse_command" => command_words::put_command(out, text),
        "tokens" => definition_words::put_tokens(out, text),
        "parse" | "counts" | "print_defs" => definition_words::put_read(out, word, text),
        "rule_has" => text_words::put_rule(out, text),
        "is_in_range" => text_words::put_range(out, text),
        _ => tell_of_bytes(out, word, text),
    }
}

/// Writes what a word's function gives.
fn tell(out: &mut Out, word: &str, text: &str) {
    match word {
        "number_u32" => out.debug("", &number_u32(text)),
        "number_u64" => out.debug("", &number_u64(text)),
        "number_i32" => out.debug("", &number_i32(text)),
        "lines" => text_words::put_lines(out, text),
        "words" => text_words::put_words(out, text),
        "first_word" => text_words::put_first_word(out, text),
        "name" => text_words::put_name(out, text),
        "quoted" => text_words::put_quoted(out, text),
        _ => tell_of_languages(out, word, text),
    }
}

fn tell_of(out: &mut Out, word: &str, argument: &[u8]) {
    match str::from_utf8(argument) {
        Ok(text) => tell(out, word, text),
        Err(_) => out.unknown(),
    }
}

/// The line that answers a line.
pub fn answer(alloc: Global, line: &str) -> Out {
    let (word, rest) = first_word(line);
    let mut told = Out::new(alloc);
    let argument = unescaped(&mut told, rest);
    tell_of(&mut told, word, argument.as_slice());
    let mut out = Out::new(alloc);
    out.escaped(told.text());
    out
}
