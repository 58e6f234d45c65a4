//! The files of launches: what each writes, and what is noted of it while it runs.

use crate::processes::{Mark, Traces, text_of};
use std::alloc::{AllocError, Global};
use std::collections::VecDeque;
use std::fs::{DirBuilder, File, Files, OpenOptions};
use std::io::{ErrorKind, Write};
use std::os::unix::fs::{DirBuilderExt, OpenOptionsExt};
use std::{fs, io};

/// A launch, by the number of its job and its own.
#[derive(Clone, Copy, PartialEq)]
pub struct Launch {
    pub job: u32,
    pub number: u32,
}

/// The folder `NAME.out` of a workstation. Each launch has a file `JOB.LAUNCH` there, and while it runs a note
/// `JOB.LAUNCH.pid`, which tells its mark and its process. The folder and the files are for their owner alone.
#[derive(Drop)]
pub struct Folder<R> {
    alloc: Global,
    rt: R,
    node: String,
}

impl<R: Files<File = File> + Drop> Folder<R> {
    /// The folder of the workstation with this name. It is not made yet.
    pub fn new(alloc: Global, rt: R, node: &str) -> Result<Self, AllocError> {
        Ok(Folder {
            alloc,
            rt,
            node: String::from_str(alloc, node)?,
        })
    }

    /// The name of the workstation.
    pub fn node(&self) -> &str {
        self.node.as_str()
    }

    /// The path of the folder.
    fn path(&self) -> Result<String, AllocError> {
        let mut path = String::new(self.alloc);
        write!(path, "{}.out", self.node)?;
        Ok(path)
    }

    /// The path of the file of a launch that ends so.
    fn path_of(&self, launch: &Launch, end: &str) -> Result<String, AllocError> {
        let mut path = String::new(self.alloc);
        write!(
            path,
            "{}.out/{}.{}{}",
            self.node, launch.job, launch.number, end
        )?;
        Ok(path)
    }

    /// Opens the file that a launch writes to, behind its end. It is made where it is not there, and so is the folder.
    pub fn open(&self, launch: &Launch) -> io::Result<File> {
        let mut folder = DirBuilder::new();
        folder.mode(0o700);
        if let Err(error) = folder.create(&self.rt, self.path()?.as_str())
            && error.kind() != ErrorKind::AlreadyExists
        {
            return Err(error);
        }
        let mut options = OpenOptions::new();
        options.append(true).create(true).mode(0o600);
        options.open(&self.rt, self.path_of(launch, "")?.as_str())
    }

    /// Notes a launch by its mark, before its process begins. What is then known of the process goes behind it.
    pub fn note(&self, launch: &Launch, mark: Mark) -> io::Result<File> {
        let mut options = OpenOptions::new();
        options.write(true).create(true).truncate(true).mode(0o600);
        let mut note = options.open(&self.rt, self.path_of(launch, ".pid")?.as_str())?;
        let mut line = mark.text(self.alloc)?;
        line.push('\n')?;
        note.write_all(line.as_bytes())?;
        Ok(note)
    }

    /// The traces that are noted of a launch. None where it is not noted, or did not begin.
    pub fn noted(&self, launch: &Launch) -> io::Result<Option<Traces>> {
        let path = self.path_of(launch, ".pid")?;
        match text_of(self.alloc, &self.rt, path.as_str()) {
            Ok(note) => Ok(Traces::in_note(self.alloc, note.as_str())?),
            Err(error) if error.kind() == ErrorKind::NotFound => Ok(None),
            Err(error) => Err(error),
        }
    }

    /// Drops what was noted of a launch.
    pub fn drop_note(&self, launch: &Launch) -> io::Result<()> {
        fs::remove_file(&self.rt, self.path_of(launch, ".pid")?.as_str())
    }
}

impl<R: Files<File = File> + AllocGlobal + Clone + Drop> Folder<R> {
    /// The launches that are noted. Where there is no folder there are none.
    pub fn launches(&self) -> io::Result<VecDeque<Launch>> {
        let mut launches = VecDeque::new(self.alloc);
        let names = match fs::read_dir(&self.rt, self.path()?.as_str()) {
            Ok(names) => names,
            Err(error) if error.kind() == ErrorKind::NotFound => return Ok(launches),
            Err(error) => return Err(error),
        };
        for name in names {
            match name {
                Ok(entry) => {
                    if let Some(launch) = launch_of(entry.file_name()) {
                        launches.push_back(launch)?;
                    }
                }
                // a name that is no text is no note's
                Err(error) if error.kind() == ErrorKind::InvalidFilename => {}
                Err(error) => return Err(error),
            }
        }
        Ok(launches)
    }
}

/// The launch of which a note of this name tells.
fn launch_of(name: &str) -> Option<Launch> {
    let (job, rest) = name.split_once('.')?;
    let number = rest.strip_suffix(".pid")?;
    Some(Launch {
        job: job.parse::<u32>().ok()?,
        number: number.parse::<u32>().ok()?,
    })
}
