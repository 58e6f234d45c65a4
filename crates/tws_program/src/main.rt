//! The program: its words, standard input and standard output, its exit status, and the real outside of a node.
#![tactic(auto)]

use base_types::{NoMemory, Text};
use real_outside::{ChildSpawner, Commons, FileDisk, FileProber, SystemClock, TcpLink};
use std::alloc::{AllocError, Global};
use std::io::ErrorKind;
use std::process::ExitCode;
use std::rt::Env;
use std::{env, io};
use tws_top::tws;
use whole_io::{StdSink, StdSource};

const NO_MEMORY: u8 = 9;

/// The words after the program's name. Where one of them is no text, they have no form, and none is given on.
fn words(rt: &(impl Env + AllocGlobal)) -> Result<Vec<Text>, AllocError> {
    let alloc = rt.alloc();
    let mut words = Vec::new(alloc);
    let args = match env::args(rt) {
        Ok(args) => args,
        Err(fault) if fault.kind() == ErrorKind::OutOfMemory => return Err(AllocError),
        Err(_) => return Ok(words),
    };
    for word in args.skip(1) {
        words.push(Text::from_string(word))?;
    }
    Ok(words)
}

/// The second word, which names the workstation where there is one.
fn name(words: &[Text]) -> &str {
    match words {
        [_, name, ..] => name.as_str(),
        _ => "",
    }
}

/// Does what the words ask for over the real objects. None of them is touched before `tws` calls it.
fn run(rt: HostRuntime, words: &[Text]) -> Result<u8, NoMemory> {
    let alloc = rt.alloc();
    let mut input = StdSource::new(rt.reader());
    let mut out = StdSink::new(io::writer(&rt));
    let commons = Commons::new(alloc, rt, name(words))?;
    let disk = FileDisk::new(alloc, rt, name(words), commons.share()?)?;
    let mut link = TcpLink::new(alloc, rt, commons.share()?);
    let mut jobs = ChildSpawner::new(alloc, rt, name(words), commons.share()?)?;
    let mut clock = SystemClock::new(rt);
    let mut files = FileProber::new(rt, commons);
    let done = tws(
        alloc, words, &mut input, &mut out, disk, &mut link, &mut jobs, &mut clock, &mut files,
    );
    Ok(done.status)
}

fn main(rt: HostRuntime) -> ExitCode {
    let status = match words(&rt) {
        Ok(words) => match run(rt, words.as_slice()) {
            Ok(status) => status,
            Err(NoMemory) => NO_MEMORY,
        },
        Err(AllocError) => NO_MEMORY,
    };
    ExitCode::from(status)
}
