//! Answers the cases of the repository that ask single layers, or `tws` over objects in memory; it serves nothing else.
//! The first word names the library that answers standard input:
//!
//! | Word | Standard input | Library |
//! |---|---|---|
//! | `night` | networks, and questions about their nights | `night_probe` |
//! | `text` | a question on each line | `text_probe` |
//! | `service` | a script | `service_probe` |
//!
//! What the library answers is written, and the status is 0; it is 1 where the words cannot be read, or reading or writing
//! fails. `service` ends with 100 behind a line that is not understood or where reading fails, with 101 for want of memory,
//! and with 102 where writing fails. With no word, or another one, nothing is read or written, and the status is 103.
//! Nothing is promised of what is written; the cases tell what must be.
#![tactic(auto)]

use service_probe::{NOT_UNDERSTOOD, Told, followed};
use std::env;
use std::io::{self, BufRead, BufReader};
use std::process::ExitCode;

const NOT_WRITTEN: u8 = 102;

const NO_WORD: u8 = 103;

/// Answers questions about nights.
fn answer_nights(rt: HostRuntime) -> io::Result<ExitCode> {
    let text = io::read_to_string(rt.alloc(), rt.reader())?;
    let out = night_probe::answers(rt.alloc(), text.as_str());
    rt.print(out.text())?;
    Ok(ExitCode::SUCCESS)
}

/// Answers each line by a line.
fn answer_lines(rt: HostRuntime) -> io::Result<ExitCode> {
    let alloc = rt.alloc();
    let input = BufReader::new(alloc, rt.reader())?;
    for line in input.lines(alloc) {
        let line = line?;
        let answer = text_probe::answer(alloc, line.as_str());
        rt.println(answer.text())?;
    }
    Ok(ExitCode::SUCCESS)
}

/// Follows a script of services.
fn follow_script(rt: HostRuntime) -> ExitCode {
    let mut out = Told::new(rt.alloc());
    let status = match io::read_to_string(rt.alloc(), rt.reader()) {
        Ok(script) => followed(rt.alloc(), script.as_str(), &mut out),
        Err(_) => NOT_UNDERSTOOD,
    };
    match rt.print(out.as_str()) {
        Ok(()) => ExitCode::from(status),
        Err(_) => ExitCode::from(NOT_WRITTEN),
    }
}

fn answer(rt: HostRuntime, word: &str) -> io::Result<ExitCode> {
    match word {
        "night" => answer_nights(rt),
        "text" => answer_lines(rt),
        "service" => Ok(follow_script(rt)),
        _ => Ok(ExitCode::from(NO_WORD)),
    }
}

fn main(rt: HostRuntime) -> io::Result<ExitCode> {
    match env::args(&rt)?.nth(1) {
        Some(word) => answer(rt, word.as_str()),
        None => Ok(ExitCode::from(NO_WORD)),
    }
}
