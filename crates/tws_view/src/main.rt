//! The program that sees into what nodes left on the disk: its words, standard input and standard output, its exit
//! status, and the files of the current folder, which it only reads.
#![tactic(auto)]

use base_types::Text;
use real_folders::RealFolder;
use std::alloc::AllocError;
use std::io::ErrorKind;
use std::process::ExitCode;
use std::rt::Env;
use std::{env, io};
use view_words::view;
use whole_io::{StdSink, StdSource};

const NO_MEMORY: u8 = 9;

/// The words after the program's name. Where one of them is no text, they have no form, and none is given on.
fn words(rt: &(impl Env + AllocGlobal)) -> Result<Vec<Text>, AllocError> {
    let alloc = rt.alloc();
    let mut words = Vec::new(alloc);
    let args = match env::args(rt) {
        Ok(args) => args,
        Err(fault) if fault.kind() == ErrorKind::OutOfMemory => return Err(AllocError),
        Err(_) => return Ok(words),
    };
    for word in args.skip(1) {
        words.push(Text::from_string(word))?;
    }
    Ok(words)
}

fn main(rt: HostRuntime) -> ExitCode {
    let status = match words(&rt) {
        Ok(words) => {
            let alloc = rt.alloc();
            let mut input = StdSource::new(rt.reader());
            let mut out = StdSink::new(io::writer(&rt));
            let mut folder = RealFolder::new(alloc, rt);
            view(alloc, words.as_slice(), &mut input, &mut out, &mut folder)
        }
        Err(AllocError) => NO_MEMORY,
    };
    ExitCode::from(status)
}
