//! The processes of a node's jobs.
ghost use Rattle.std.specs.Prelude.{◌<◌, length, None, IfSome};

use crate::launches::{Folder, Launch};
use crate::processes::{
    MARK, Mark, Marked, Traces, identity_of, kill_with_group, marked_processes,
};
use base_types::{JobNo, NoMemory, Work};
use node_log::{Commons, Field, Value, cause_of, counted};
use outside::{End, Failed, Spawner};
use std::alloc::{AllocError, Global};
use std::collections::VecDeque;
use std::fs::{File, Files};
use std::io::{ErrorKind, Write};
use std::os::unix::process::ExitStatusExt;
use std::process::{Child, Command, ExitStatus, OpenProcess, Processes, Stdio};
use std::random::RandomSource;
use std::time::{Clock, Duration};
use std::{io, thread};

/// The return code of a process that has none.
const NO_CODE: i32 = -1;

/// How many seconds pass between two looks at what is left of earlier launches.
const LOOK: u64 = 1;

/// How often it is looked whether what was killed is gone, and how many milliseconds apart.
const MOST_WAITS: u32 = 50;

const WAIT: u64 = 10;

/// The process of a launch.
#[derive(Drop)]
struct Running<P: OpenProcess> {
    launch: Launch,
    mark: Mark,
    child: Child<P>,
}

/// The processes that were started and have not been reported, and those of earlier runs of the node.
#[derive(Drop)]
struct Children<R: Processes> {
    alloc: Global,
    rt: R,
    commons: Commons<R>,
    folder: Folder<R>,
    running: Vec<Running<R::Started>>,
    /// The launches of earlier runs that may still be at work, and whether they were looked for.
    left: VecDeque<Launch>,
    found: bool,
    /// When it was looked last at what is left of them, where it was.
    looked: Option<Duration>,
}

impl<
    R: Processes + Files<File = File> + Clock + RandomSource + AllocGlobal + Clone + Drop,
> Children<R> {
    fn start(&mut self, job: JobNo, number: u32, work: &Work) -> io::Result<()> {
        let launch = Launch { job: job.0, number };
        self.find_left()?;
        self.end_left_of(job.0)?;
        self.running.reserve(1)?;
        let output = self.folder.open(&launch)?;
        let mark = Mark::draw(&self.rt)?;
        let note = self.folder.note(&launch, mark)?;
        match self.begin(&launch, work, &output, mark) {
            Ok(child) => self.take(launch, mark, child, note),
            Err(error) => {
                let _ = self.folder.drop_note(&launch);
                Err(error)
            }
        }
    }

    /// Takes a launch that began.
    fn take(
        &mut self,
        launch: Launch,
        mark: Mark,
        child: Child<R::Started>,
        note: File,
    ) -> io::Result<()> {
        let process = child.id();
        self.running.push(Running {
            launch,
            mark,
            child,
        })?;
        if let Err(error) = self.complete(note, process) {
            self.tell("unnoted", &launch, cause_of(&error));
        }
        let process = ("process", Value::Number(u64::from(process)));
        self.tell("started", &launch, process);
        self.commons.note_work();
        self.commons.note_running(self.running.len());
        Ok(())
    }

    /// Adds the identity of its process to the note of a launch, where it has not ended yet.
    fn complete(&self, mut note: File, process: u32) -> io::Result<()> {
        match identity_of(self.alloc, &self.rt, process)? {
            Some(identity) => note.write_all(identity.as_bytes()),
            None => Ok(()),
        }
    }

    /// Starts a shell on the work, in a session of its own where this system has the program for it.
    fn begin(
        &self,
        launch: &Launch,
        work: &Work,
        output: &File,
        mark: Mark,
    ) -> io::Result<Child<R::Started>> {
        let mut command = Command::new(self.alloc, "setsid")?;
        command.arg("sh")?;
        match self.spawn(command, launch, work, output, mark) {
            Err(error) if error.kind() == ErrorKind::NotFound => {
                let command = Command::new(self.alloc, "sh")?;
                self.spawn(command, launch, work, output, mark)
            }
            child => child,
        }
    }

    /// Starts this shell on the work, with nothing to read. All that it writes goes to its output.
    fn spawn(
        &self,
        mut shell: Command,
        launch: &Launch,
        work: &Work,
        output: &File,
        mark: Mark,
    ) -> io::Result<Child<R::Started>> {
        give(&mut shell, work)?;
        self.surround(&mut shell, launch, mark)?;
        shell.stdin(Stdio::null());
        shell.stdout(Stdio::from(output.try_clone()?));
        shell.stderr(Stdio::from(output.try_clone()?));
        shell.spawn(&self.rt)
    }

    /// Gives a launch its surroundings.
    fn surround(&self, shell: &mut Command, launch: &Launch, mark: Mark) -> Result<(), AllocError> {
        shell.env("TWS_NODE", self.folder.node())?;
        shell.env("TWS_JOB", decimal(self.alloc, launch.job)?.as_str())?;
        shell.env("TWS_LAUNCH", decimal(self.alloc, launch.number)?.as_str())?;
        shell.env(MARK, mark.text(self.alloc)?.as_str())?;
        Ok(())
    }

    /// Writes a line of the log about a launch.
    fn tell(&self, word: &str, launch: &Launch, field: Field<'_>) {
        self.commons.tell(
            word,
            &[
                ("job", Value::Number(u64::from(launch.job))),
                ("launch", Value::Number(u64::from(launch.number))),
                field,
            ],
        );
    }

    /// The first that ended, which is then forgotten.
    fn next_end(&mut self) -> Option<End> {
        self.look_at_left();
        let (place, status) = first_ended(self.running.as_mut_slice())?;
        let launch = self.running.remove(place).launch;
        let _ = self.folder.drop_note(&launch);
        self.tell("ended", &launch, how_ended(&status));
        self.commons.note_work();
        self.commons.note_running(self.running.len());
        Some(End {
            job: JobNo(launch.job),
            number: launch.number,
            rc: code_of(&status),
        })
    }

    /// Kills a launch: its process with all that is in its group, and all others that have its mark. The process was not
    /// waited for, so its number is no other's.
    fn kill(&mut self, job: JobNo, number: u32) {
        let launch = Launch { job: job.0, number };
        let Some(running) = running_of(&mut self.running, &launch) else {
            return;
        };
        let process = running.child.id();
        let killed = kill_with_group(self.alloc, &self.rt, process);
        let _ = running.child.kill();
        let traces = Traces::of_mark(self.alloc, running.mark);
        let all = self.is_ended(&traces);
        match killed {
            Ok(()) if all => {
                let process = ("process", Value::Number(u64::from(process)));
                self.tell("killed", &launch, process);
            }
            Ok(()) => self.tell("unkilled", &launch, ("cause", Value::Word("TimedOut"))),
            Err(error) => self.tell("unkilled", &launch, cause_of(&error)),
        }
    }

    /// Looks every second at what is left of earlier launches. Where they could not be looked for this is tried again.
    fn look_at_left(&mut self) {
        let Ok(now) = self.rt.monotonic() else {
            return;
        };
        if let Some(looked) = self.looked
            && now.saturating_sub(looked) < Duration::from_secs(LOOK)
        {
            return;
        }
        self.looked = Some(now);
        if self.found {
            self.pass_left(false);
        } else if let Err(error) = self.find_left() {
            let cause = [("call", Value::Word("find-launches")), cause_of(&error)];
            self.commons.tell("failed", &cause);
        }
    }

    /// Finds what is left of the launches of earlier runs, where that was not done. It fails where the folder of the notes
    /// cannot be read.
    fn find_left(&mut self) -> io::Result<()> {
        if !self.found {
            self.left = self.folder.launches()?;
            self.found = true;
            self.pass_left(true);
        }
        Ok(())
    }

    /// Drops what is left no more. The first time the log is told of all that is.
    fn pass_left(&mut self, is_first: bool) {
        if self.left.is_empty() {
            return;
        }
        let marked = marked_processes(self.alloc, &self.rt);
        for _ in 0..self.left.len() {
            let Some(launch) = self.left.pop_front() else {
                return;
            };
            match self.process_of(&launch, &marked) {
                Ok(None) => self.drop_left(&launch, "gone"),
                found => {
                    if is_first {
                        self.tell("left", &launch, ("process", number_of(&found)));
                    }
                    self.keep_left(launch);
                }
            }
        }
    }

    /// A process of a launch that was noted, where these have marks. It fails where the system does not tell.
    fn process_of(
        &self,
        launch: &Launch,
        marked: &io::Result<Vec<Marked>>,
    ) -> io::Result<Option<u32>> {
        let Some(traces) = self.folder.noted(launch)? else {
            return Ok(None);
        };
        match marked {
            Ok(marked) => {
                let processes = traces.processes(self.alloc, &self.rt, marked.as_slice())?;
                Ok(processes.as_slice().first().copied())
            }
            Err(error) => Err(error.kind().into()),
        }
    }

    /// Drops the note of a launch that is at work no more, and tells so by this word.
    fn drop_left(&self, launch: &Launch, word: &str) {
        let fields = [
            ("job", Value::Number(u64::from(launch.job))),
            ("launch", Value::Number(u64::from(launch.number))),
        ];
        self.commons.tell(word, &fields);
        let _ = self.folder.drop_note(launch);
    }

    /// Keeps a launch that was taken out just now, for which there is room.
    fn keep_left(&mut self, launch: Launch) {
        let _ = self.left.push_back(launch);
    }

    /// Ends what is left of the earlier launches of a job, so that its work is not done twice side by side. It fails where
    /// one of them cannot be ended.
    fn end_left_of(&mut self, job: u32) -> io::Result<()> {
        let mut ended = Ok(());
        for _ in 0..self.left.len() {
            let Some(launch) = self.left.pop_front() else {
                return ended;
            };
            if launch.job != job {
                self.keep_left(launch);
            } else if self.is_left_ended(&launch) {
                self.drop_left(&launch, "cleared");
            } else {
                self.keep_left(launch);
                ended = Err(ErrorKind::TimedOut.into());
            }
        }
        ended
    }

    /// Ends what is left of a launch that was noted, and tells whether it is gone.
    fn is_left_ended(&self, launch: &Launch) -> bool {
        match self.folder.noted(launch) {
            Ok(Some(traces)) => self.is_ended(&traces),
            Ok(None) => true,
            Err(_) => false,
        }
    }

    /// Kills each process of a launch, and tells whether all are gone within half a second.
    fn is_ended(&self, traces: &Traces) -> bool {
        for _ in 0..MOST_WAITS {
            if let Ok(processes) = self.at_work(traces) {
                if processes.is_empty() {
                    return true;
                }
                for process in processes.iter() {
                    let _ = kill_with_group(self.alloc, &self.rt, *process);
                }
            }
            thread::sleep(&self.rt, Duration::from_millis(WAIT));
        }
        false
    }

    /// The processes of a launch that are at work now.
    fn at_work(&self, traces: &Traces) -> io::Result<Vec<u32>> {
        let marked = marked_processes(self.alloc, &self.rt)?;
        traces.processes(self.alloc, &self.rt, marked.as_slice())
    }
}

/// The one of these that is this launch.
fn running_of<'a, P: OpenProcess>(
    all: &'a mut Vec<Running<P>>,
    launch: &Launch,
) -> Option<&'a mut Running<P>> {
    let place = all.iter().position(|it| it.launch == *launch)?;
    all.get_mut(place)
}

/// The number of a process that was looked for, as a value of the log.
fn number_of(found: &io::Result<Option<u32>>) -> Value<'static> {
    match found {
        Ok(Some(process)) => Value::Number(u64::from(*process)),
        _ => Value::Word("unknown"),
    }
}

/// Gives a shell its work.
fn give(shell: &mut Command, work: &Work) -> Result<(), AllocError> {
    match work {
        Work::Command(text) => {
            shell.arg("-c")?.arg(text.as_str())?;
        }
        Work::Script(text) => {
            shell.arg(text.as_str())?;
        }
    }
    Ok(())
}

/// The digits of a number.
fn decimal(alloc: Global, number: u32) -> Result<String, AllocError> {
    let mut text = String::new(alloc);
    write!(text, "{}", number)?;
    Ok(text)
}

/// The return code of a process that ended.
fn code_of(status: &Option<ExitStatus>) -> i32 {
    match status {
        Some(status) => status.code().unwrap_or(NO_CODE),
        None => NO_CODE,
    }
}

/// How a process ended, as a field of the log.
fn how_ended(status: &Option<ExitStatus>) -> Field<'static> {
    match status {
        Some(status) => match status.signal() {
            Some(signal) => ("signal", Value::Code(signal)),
            None => ("code", Value::Code(status.code().unwrap_or(NO_CODE))),
        },
        None => ("code", Value::Code(NO_CODE)),
    }
}

/// The place of the first process that ended, and how. One that the system knows no more counts as ended.
fn first_ended<P: OpenProcess>(running: &mut [Running<P>]) -> Option<(usize, Option<ExitStatus>)>
    ensures { IfSome result (λ end. end.0 < length running.old) }
{
    for (place, entry) in running.iter_mut().enumerate() {
        match entry.child.try_wait() {
            Ok(None) => {}
            Ok(Some(status)) => return Some((place, Some(status))),
            Err(error) if error.kind() == ErrorKind::Interrupted => {}
            Err(_) => return Some((place, None)),
        }
    }
    None
}

/// Starts the work of jobs as children of the node, by the shell: `sh -c TEXT` for a command, `sh TEXT` for a script.
///
/// A child reads nothing. It runs as the node's user, in the node's folder, with the node's environment and with TWS_NODE,
/// TWS_JOB and TWS_LAUNCH, the name of the workstation and the numbers of the job and of the launch. What it writes goes
/// to the file `JOB.LAUNCH` in the folder `NAME.out`, by these numbers. The folder and its files are for the node's user
/// alone. It leads a session of its own where this system has the program `setsid`. One that ended without a code, by a
/// signal for instance, is reported with -1.
///
/// Each launch has a mark of its own, which is TWS_MARK in its environment and so in that of all that it starts. `kill` ends
/// its group, and each other process that has its mark, also one that left the group.
///
/// While a launch runs, `JOB.LAUNCH.pid` tells its mark and its process. The mark is noted before the process begins, and a
/// launch that cannot be noted does not begin. By these files the first call finds what is left of launches of an earlier
/// run of the node: their processes, and all others with their marks. Where such a job is started again, what is left of
/// its earlier launches is ended first.
///
/// A process that takes the mark out of its environment, or becomes another user's, is found only where it is the first of
/// its launch. So a launch may be told as ended while such a process goes on.
#[derive(Drop)]
pub struct ChildSpawner<R: Processes> {
    children: Children<R>,
    faults: u64,
}

impl<R: Processes + Files<File = File> + Clock + RandomSource + Drop> ChildSpawner<R> {
    /// The spawner of the workstation with this name, which has started nothing.
    pub fn new(alloc: Global, rt: R, name: &str, commons: Commons<R>) -> Result<Self, NoMemory>
    where
        R: Copy,
    {
        Ok(ChildSpawner {
            children: Children {
                alloc,
                rt,
                commons,
                folder: Folder::new(alloc, rt, name)?,
                running: Vec::new(alloc),
                left: VecDeque::new(alloc),
                found: false,
                looked: None,
            },
            faults: 0,
        })
    }
}

impl<R: Processes + Files<File = File> + Clock + RandomSource + AllocGlobal + Clone + Drop> Spawner
    for ChildSpawner<R> {
    ghost calls = { λ _. record { started = None; killed = None; reported = None } };

    ghost faults = { λ s. s.faults };

    /// It fails where the file of its output cannot be opened, the launch cannot be noted, the shell cannot be started, what
    /// is left of earlier launches cannot be found or ended, or memory runs out.
    fn start(&mut self, job: JobNo, number: u32, work: &Work) -> Result<(), Failed> {
        let started = self.children.start(job, number, work);
        counted(&mut self.faults, &self.children.commons, "start", started)
    }

    /// It doesn't fail.
    fn poll(&mut self) -> Result<Option<End>, Failed> {
        Ok(self.children.next_end())
    }

    fn kill(&mut self, job: JobNo, number: u32) {
        self.children.kill(job, number);
    }
}
