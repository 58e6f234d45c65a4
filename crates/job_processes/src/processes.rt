//! Which processes are of a launch, and how they are ended.
//!
//! A launch is known by its mark, which each of its processes has in its environment, and by the process that it began
//! with, which its number, its start and the run of the system tell from each other process.

use std::alloc::{AllocError, Global};
use std::fs::{Files, OpenOptions};
use std::io::{ErrorKind, Read};
use std::process::{Command, Processes, Stdio};
use std::random::RandomSource;
use std::{fs, io, str};

/// The place of a process's start among the words that the system tells of it behind its name.
const START: usize = 19;

/// The file in which the system tells one of its runs from each other one.
const RUN: &str = "/proc/sys/kernel/random/boot_id";

/// The name by which a process has the mark of its launch in its environment, and how its word begins there.
pub const MARK: &str = "TWS_MARK";

const MARK_IS: &[u8] = b"TWS_MARK=";

/// How many bytes of a text are read. Each text that is read here is shorter.
const MOST_OF_TEXT: u64 = 1_024;

/// How many bytes of an environment are read. The system lets none be so long.
const MOST_OF_ENVIRONMENT: u64 = 8_388_608;

/// The number of the failure that a process is there no more.
const NO_PROCESS: i32 = 3;

/// The mark of a launch: a number that is drawn for it. Its text is sixteen digits to the base 16.
#[derive(Clone, Copy)]
pub struct Mark(u64);

impl Mark {
    /// A mark that is drawn now.
    pub fn draw<R: RandomSource>(rt: &R) -> io::Result<Self> {
        let mut bytes = [0u8; 8];
        rt.fill_bytes(&mut bytes)?;
        Ok(Mark(u64::from_ne_bytes(bytes)))
    }

    /// Its text.
    pub fn text(self, alloc: Global) -> Result<String, AllocError> {
        let mut text = String::new(alloc);
        write!(text, "{:016x}", self.0)?;
        Ok(text)
    }

    /// The mark of this text. None where it is none.
    fn of(text: &str) -> Option<Self> {
        match u64::from_str_radix(text, 16) {
            Ok(number) => Some(Mark(number)),
            Err(_) => None,
        }
    }
}

/// A process that has a mark.
#[derive(Clone, Copy)]
pub struct Marked {
    process: u32,
    mark: Mark,
}

/// What is known of the processes of a launch: the mark that they have, and the identity of the first of them, which is
/// empty where it was not noted.
#[derive(Drop)]
pub struct Traces {
    mark: Mark,
    identity: String,
}

impl Traces {
    /// Those of a launch with this mark.
    pub fn of_mark(alloc: Global, mark: Mark) -> Self {
        Traces {
            mark,
            identity: String::new(alloc),
        }
    }

    /// Those that a note tells: a line with the mark, and one with the identity. The mark is noted before the launch begins,
    /// so a note without that whole line is of a launch that did not begin.
    pub fn in_note(alloc: Global, note: &str) -> Result<Option<Self>, AllocError> {
        let Some((line, identity)) = note.split_once('\n') else {
            return Ok(None);
        };
        let Some(mark) = Mark::of(line) else {
            return Ok(None);
        };
        Ok(Some(Traces {
            mark,
            identity: String::from_str(alloc, identity)?,
        }))
    }

    /// The processes of the launch that are at work, where these have marks. It fails where the system does not tell.
    pub fn processes<R: Files>(
        &self,
        alloc: Global,
        rt: &R,
        marked: &[Marked],
    ) -> io::Result<Vec<u32>> {
        let mut found = Vec::new(alloc);
        if let Some(process) = self.first(alloc, rt)? {
            found.push(process)?;
        }
        for it in marked {
            if it.mark.0 == self.mark.0 {
                found.push(it.process)?;
            }
        }
        Ok(found)
    }

    /// The first process of the launch, where it is at work.
    fn first<R: Files>(&self, alloc: Global, rt: &R) -> io::Result<Option<u32>> {
        let Some(process) = number_of(self.identity.as_str()) else {
            return Ok(None);
        };
        match identity_of(alloc, rt, process) {
            Ok(Some(now)) if now.as_str() == self.identity.as_str() => Ok(Some(process)),
            Ok(_) => Ok(None),
            Err(error) if is_gone(&error) => Ok(None),
            Err(error) => Err(error),
        }
    }
}

/// The number that begins an identity. None where it is cut short.
fn number_of(identity: &str) -> Option<u32> {
    let (number, _rest) = identity.strip_suffix('\n')?.split_once(' ')?;
    number.parse::<u32>().ok()
}

/// The text of a short file.
pub fn text_of<R: Files>(alloc: Global, rt: &R, path: &str) -> io::Result<String> {
    let mut options = OpenOptions::new();
    options.read(true);
    let file = options.open(rt, path)?;
    io::read_to_string(alloc, file.take(MOST_OF_TEXT))
}

/// What tells a process from each other one that ever had its number: the number, when it started, and the run of the
/// system, in one line. None where it has ended and only its end is still kept. It fails where there is no such process,
/// and where the system does not tell.
pub fn identity_of<R: Files>(alloc: Global, rt: &R, process: u32) -> io::Result<Option<String>> {
    let mut path = String::new(alloc);
    write!(path, "/proc/{}/stat", process)?;
    let told = text_of(alloc, rt, path.as_str())?;
    let Some(start) = start_of(told.as_str()) else {
        return Ok(None);
    };
    let run = text_of(alloc, rt, RUN)?;
    let mut line = String::new(alloc);
    write!(line, "{} {} {}\n", process, start, run.as_str().trim_end())?;
    Ok(Some(line))
}

/// When the process started of which the system tells this. None where it has ended and only its end is still kept.
fn start_of(told: &str) -> Option<&str> {
    let (_name, behind) = told.rsplit_once(") ")?;
    if behind.starts_with('Z') || behind.starts_with('X') {
        return None;
    }
    behind.split_ascii_whitespace().nth(START)
}

/// All processes that have a mark, as far as this user may see.
pub fn marked_processes<R: Files + AllocGlobal + Clone + Drop>(
    alloc: Global,
    rt: &R,
) -> io::Result<Vec<Marked>> {
    let mut found = Vec::new(alloc);
    let mut environment = Vec::new(alloc);
    for entry in fs::read_dir(rt, "/proc")? {
        let entry = entry?;
        if let Ok(process) = entry.file_name().parse::<u32>()
            && let Some(mark) = mark_of(alloc, rt, process, &mut environment)?
        {
            found.push(Marked { process, mark })?;
        }
    }
    Ok(found)
}

/// The mark of a process. One that is gone has none, and neither has another user's.
fn mark_of<R: Files>(
    alloc: Global,
    rt: &R,
    process: u32,
    environment: &mut Vec<u8>,
) -> io::Result<Option<Mark>> {
    let mut path = String::new(alloc);
    write!(path, "/proc/{}/environ", process)?;
    environment.clear();
    match read(rt, path.as_str(), environment) {
        Ok(()) => Ok(mark_in(environment.as_slice())),
        Err(error) if is_gone(&error) => Ok(None),
        Err(error) if error.kind() == ErrorKind::PermissionDenied => Ok(None),
        Err(error) => Err(error),
    }
}

/// Reads an environment.
fn read<R: Files>(rt: &R, path: &str, environment: &mut Vec<u8>) -> io::Result<()> {
    let mut options = OpenOptions::new();
    options.read(true);
    let file = options.open(rt, path)?;
    file.take(MOST_OF_ENVIRONMENT).read_to_end(environment)?;
    Ok(())
}

/// The mark that is in an environment.
fn mark_in(environment: &[u8]) -> Option<Mark> {
    for word in environment.split(|byte| *byte == 0) {
        if let Some(mark) = word.strip_prefix(MARK_IS) {
            return Mark::of(str::from_utf8(mark).ok()?);
        }
    }
    None
}

/// Whether a process is there no more.
fn is_gone(error: &io::Error) -> bool {
    error.kind() == ErrorKind::NotFound || error.raw_os_error() == Some(NO_PROCESS)
}

/// Kills a process with its group, by a shell, whose end is waited for. A process that leads no group is killed alone. It
/// fails where neither can be killed.
pub fn kill_with_group<R: Processes>(alloc: Global, rt: &R, process: u32) -> io::Result<()> {
    let mut text = String::new(alloc);
    write!(
        text,
        "kill -s KILL -- -{} || kill -s KILL -- {}",
        process, process
    )?;
    let mut shell = Command::new(alloc, "sh")?;
    shell.arg("-c")?.arg(text.as_str())?;
    shell.stdin(Stdio::null());
    shell.stdout(Stdio::null());
    shell.stderr(Stdio::null());
    if shell.status(rt)?.success() {
        Ok(())
    } else {
        Err(ErrorKind::Other.into())
    }
}
