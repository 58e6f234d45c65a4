//! The folder in which nodes keep their files, over the system. It is read and never written.
//!
//! Nothing can be proved of what a system holds, so the folder tells nothing. It counts the calls that failed.
#![tactic(auto)]

ghost use Rattle.std.specs.Prelude.{None, ⊤};
ghost use Rattle.std.specs.Io.{ReadsAtMost};

use base_types::NoMemory;
use folders::Folder;
use outside::Failed;
use std::alloc::Global;
use std::fs::{File, Files};
use std::io;
use std::os::unix::fs::FileExt;

/// A file and its name.
#[derive(Drop)]
struct OpenFile {
    name: String,
    file: File,
}

/// The file that was asked for last, which stays open.
#[derive(Drop)]
struct LastFile<R> {
    alloc: Global,
    rt: R,
    open: Option<OpenFile>,
}

/// Fills the buffer from a place of a file on, up to the file's end, and answers how many bytes these are.
fn fill(file: &File, at: u64, buf: &mut [u8]) -> io::Result<usize>
    ensures { ReadsAtMost result buf.new }
{
    let mut filled = 0usize;
    while filled < buf.len() {
        let count = file.read_at(&mut buf[filled..], at.saturating_add(filled as u64))?;
        if count == 0 {
            break;
        }
        filled += count;
    }
    Ok(filled)
}

impl<R: Files<File = File>> LastFile<R> {
    /// The file of a name, which is opened unless it is open.
    fn opened(&mut self, name: &str) -> io::Result<&File> {
        let is_open = match &self.open {
            Some(open) => open.name.as_str() == name,
            None => false,
        };
        if !is_open {
            let file = File::open(&self.rt, name)?;
            let name = String::from_str(self.alloc, name)?;
            self.open = Some(OpenFile { name, file });
        }
        match &self.open {
            Some(open) => Ok(&open.file),
            None => Err(io::ErrorKind::NotFound.into()),
        }
    }

    fn read_at(&mut self, name: &str, at: u64, buf: &mut [u8]) -> io::Result<usize>
        ensures { ReadsAtMost result buf.new }
    {
        fill(self.opened(name)?, at, buf)
    }
}

/// The files of the current folder.
///
/// A file is opened for reading when it is first asked for, and stays open until another one is. So all that is read of
/// it in between is of one file, also where another one gets its name meanwhile.
#[derive(Drop)]
pub struct RealFolder<R> {
    last: LastFile<R>,
    faults: u64,
}

impl<R: Files<File = File>> RealFolder<R> {
    /// The folder, of which no file is open yet.
    pub fn new(alloc: Global, rt: R) -> Self {
        RealFolder {
            last: LastFile {
                alloc,
                rt,
                open: None,
            },
            faults: 0,
        }
    }
}

impl<R: Files<File = File>> Folder for RealFolder<R> {
    ghost seen = { λ folder name. None };

    ghost becomes = { λ folder name old new. ⊤ };

    ghost faults = { λ folder. folder.faults };

    fn read_at(&mut self, name: &str, at: u64, buf: &mut [u8]) -> Result<usize, Failed> {
        match self.last.read_at(name, at, buf) {
            Ok(count) => Ok(count),
            Err(_) => {
                self.faults = self.faults.saturating_add(1);
                Err(Failed)
            }
        }
    }
}
