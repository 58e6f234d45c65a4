//! The disk of a node: one file of the system.
ghost use Rattle.std.specs.Prelude.{None, ⊤};

use base_types::NoMemory;
use node_log::{Commons, Value, counted};
use outside::{Disk, Failed};
use std::alloc::Global;
use std::fs::{File, Files, OpenOptions};
use std::io;
use std::io::ErrorKind;
use std::os::unix::fs::{FileExt, OpenOptionsExt};
use std::time::Clock;

/// The version of this program, as its log tells it.
const VERSION: &str = "1.0";

/// How many bytes a record has in the piece that is put, beside its body: its length, and the gate behind it.
const AROUND: usize = 5;

/// A file that is opened when it is first asked for.
#[derive(Drop)]
struct LateFile<R> {
    rt: R,
    commons: Commons<R>,
    path: String,
    file: Option<File>,
    /// Whether the folder was synced since the file was opened.
    named: bool,
    /// How many bytes the body has whose piece was written last.
    body: usize,
    /// The place of the gate that was opened since the last sync.
    gate: Option<u64>,
}

impl<R: Files<File = File> + Clock + Drop> LateFile<R> {
    /// The file, which is made where it is not there, and locked.
    fn opened(&mut self) -> io::Result<&File> {
        if self.file.is_none() {
            self.commons.open_log();
            let file = open(&self.rt, self.path.as_str())?;
            let bytes = file.metadata()?.len();
            self.commons.tell(
                "start",
                &[
                    ("version", Value::Word(VERSION)),
                    ("file", Value::Text(self.path.as_str())),
                    ("bytes", Value::Number(bytes)),
                ],
            );
            self.file = Some(file);
        }
        match &self.file {
            Some(file) => Ok(file),
            None => Err(ErrorKind::NotFound.into()),
        }
    }

    fn len(&mut self) -> io::Result<u64> {
        Ok(self.opened()?.metadata()?.len())
    }

    fn read_at(&mut self, at: u64, buf: &mut [u8]) -> io::Result<()> {
        self.opened()?.read_exact_at(buf, at)
    }

    /// Writes a piece. One byte alone is the gate of a record, and any other piece has the record's body.
    fn write_at(&mut self, at: u64, piece: &[u8]) -> io::Result<()> {
        self.opened()?.write_all_at(piece, at)?;
        if piece.len() == 1 {
            self.gate = Some(at);
        } else {
            self.body = piece.len().saturating_sub(AROUND);
        }
        Ok(())
    }

    fn cut(&mut self, len: u64) -> io::Result<()> {
        self.opened()?.set_len(len)
    }

    /// Syncs the file, and the first time its name in the folder too. Where a gate was opened, its record is kept.
    fn sync(&mut self) -> io::Result<()> {
        self.opened()?.sync_all()?;
        if !self.named {
            File::open(&self.rt, ".")?.sync_all()?;
            self.named = true;
        }
        if let Some(gate) = self.gate.take() {
            self.commons.note_work();
            self.commons.tell(
                "kept",
                &[
                    ("at", Value::Number(gate)),
                    ("bytes", Value::Number(self.body as u64)),
                ],
            );
        }
        Ok(())
    }
}

/// How many bytes at the end of the file are written anew when it is opened: those of the longest record, and both gates.
const RENEWED: u64 = 4_194_310;

/// How many of them are written at a time, and how often.
const PIECE: usize = 65_536;

const PIECES: u32 = 65;

/// Opens the file for reading and writing. A file that another open holds is refused.
fn open<R: Files<File = File>>(rt: &R, path: &str) -> io::Result<File> {
    let mut options = OpenOptions::new();
    options.read(true).write(true).create(true).mode(0o600);
    let file = options.open(rt, path)?;
    file.try_lock()?;
    renew(&file)?;
    Ok(file)
}

/// Writes the last bytes of the file anew, as they are, and syncs it. Where a sync of an earlier run failed, the system may
/// count as written what never reached the disk, and would leave it out of each later sync.
fn renew(file: &File) -> io::Result<()> {
    let len = file.metadata()?.len();
    let mut at = len.saturating_sub(RENEWED);
    let mut buffer = [0u8; PIECE];
    for _ in 0..PIECES {
        let count = len.saturating_sub(at).min(PIECE as u64) as usize;
        if count == 0 {
            break;
        }
        let piece = &mut buffer[..count];
        file.read_exact_at(piece, at)?;
        file.write_all_at(piece, at)?;
        at = at.saturating_add(count as u64);
    }
    file.sync_all()
}

/// The message file of a workstation, `NAME.msg` in the current folder. It is made for the node's user alone.
///
/// The first call opens the file, and makes it where it is not there. A call that cannot open it fails, and the next one
/// tries again. While the disk lasts it holds the lock of the file, so that a second node on the same file fails and
/// writes nothing. The first `sync` also syncs the folder, without which a stop might leave the file without its name.
#[derive(Drop)]
pub struct FileDisk<R> {
    file: LateFile<R>,
    faults: u64,
}

impl<R: Files<File = File> + Clock + Drop> FileDisk<R> {
    /// The disk of the workstation with this name. It touches no file yet.
    pub fn new(alloc: Global, rt: R, name: &str, commons: Commons<R>) -> Result<Self, NoMemory> {
        let mut path = String::from_str(alloc, name)?;
        path.push_str(".msg")?;
        Ok(FileDisk {
            file: LateFile {
                rt,
                commons,
                path,
                file: None,
                named: false,
                body: 0,
                gate: None,
            },
            faults: 0,
        })
    }
}

impl<R: Files<File = File> + Clock + Drop> Disk for FileDisk<R> {
    ghost seen = { λ _. None };

    ghost may_leave = { λ d file. ⊤ };

    ghost moment = { λ _. 0 };

    ghost left_since = { λ d t file. ⊤ };

    ghost faults = { λ d. d.faults };

    ghost seen_may_be_left = { λ d file left. tt };

    ghost counts_now = { λ d t file le now. tt };

    ghost only_now = { λ d file left. tt };

    fn len(&mut self) -> Result<u64, Failed> {
        let len = self.file.len();
        counted(&mut self.faults, &self.file.commons, "disk-length", len)
    }

    fn read_at(&mut self, at: u64, buf: &mut [u8]) -> Result<(), Failed> {
        let read = self.file.read_at(at, buf);
        counted(&mut self.faults, &self.file.commons, "disk-read", read)
    }

    fn write_at(&mut self, at: u64, piece: &[u8]) -> Result<(), Failed> {
        let written = self.file.write_at(at, piece);
        counted(&mut self.faults, &self.file.commons, "disk-write", written)
    }

    fn cut(&mut self, len: u64) -> Result<(), Failed> {
        let cut = self.file.cut(len);
        counted(&mut self.faults, &self.file.commons, "disk-cut", cut)
    }

    fn sync(&mut self) -> Result<(), Failed> {
        let synced = self.file.sync();
        counted(&mut self.faults, &self.file.commons, "disk-sync", synced)
    }
}
