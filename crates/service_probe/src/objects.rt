//! The objects of a call in memory.
use base_types::{Bytes, Items, Moment, Text};
use outside::{Arrival, Disk, End, Failed};
use outside_mem::{CrashDisk, MemClock, MemDisk, MemLink, MemSink, MemSource, MemSpawner};
use probe_mem::MemProber;
use std::alloc::Global;
use std::mem;
use tws_top::{Done, tws};

/// How many calls and bytes an object has room for.
const ROOM: u32 = 16_384;

/// How many bytes a disk has room for.
const DISK_ROOM: u32 = 8_388_608;

/// What comes to a call, and which calls of its objects fail.
pub struct Comes {
    pub arrivals: Items<Arrival>,
    pub readings: Items<Moment>,
    pub ends: Items<Option<End>>,
    pub answers: Items<Result<bool, Failed>>,
    pub source: Items<u32>,
    pub sink: Items<u32>,
    pub disk: Items<u32>,
    pub link: Items<u32>,
    pub jobs: Items<u32>,
    /// Whether a write of the disk that fails leaves half of its piece.
    pub tears: bool,
    /// The number of the round in which this comes.
    pub round: u32,
}

impl Drop for Comes {
    fn drop(self) {
        let Comes {
            arrivals: _arrivals,
            readings: _readings,
            ends: _ends,
            answers: _answers,
            source: _source,
            sink: _sink,
            disk: _disk,
            link: _link,
            jobs: _jobs,
            tears: _tears,
            round: _round,
        } = self;
    }
}

impl Comes {
    pub fn new(alloc: Global) -> Self {
        Comes {
            arrivals: Items::new(alloc),
            readings: Items::new(alloc),
            ends: Items::new(alloc),
            answers: Items::new(alloc),
            source: Items::new(alloc),
            sink: Items::new(alloc),
            disk: Items::new(alloc),
            link: Items::new(alloc),
            jobs: Items::new(alloc),
            tears: false,
            round: 0,
        }
    }
}

/// All that a call is made over but its disk.
pub struct Objects {
    pub source: MemSource,
    pub sink: MemSink,
    pub link: MemLink,
    pub jobs: MemSpawner,
    pub clock: MemClock,
    pub files: MemProber,
}

impl Drop for Objects {
    fn drop(self) {
        let Objects {
            source: _source,
            sink: _sink,
            link: _link,
            jobs: _jobs,
            clock: _clock,
            files: _files,
        } = self;
    }
}

/// A list, in whose place an empty one is left.
fn taken<T>(alloc: Global, items: &mut Items<T>) -> Items<T> {
    mem::replace(items, Items::new(alloc))
}

/// A copy of bytes.
pub fn copied(alloc: Global, bytes: &[u8]) -> Option<Bytes> {
    match bytes.to_vec(alloc) {
        Ok(bytes) => Some(Items::of_vec(bytes)),
        Err(_) => None,
    }
}

fn new_sink(alloc: Global, comes: &mut Comes) -> Option<MemSink> {
    MemSink::new(alloc, taken(alloc, &mut comes.sink), ROOM).ok()
}

fn new_link(alloc: Global, comes: &mut Comes) -> Option<MemLink> {
    let arrivals = taken(alloc, &mut comes.arrivals);
    MemLink::new(alloc, arrivals, taken(alloc, &mut comes.link), ROOM).ok()
}

fn new_jobs(alloc: Global, comes: &mut Comes) -> Option<MemSpawner> {
    let ends = taken(alloc, &mut comes.ends);
    MemSpawner::new(alloc, ends, taken(alloc, &mut comes.jobs), ROOM).ok()
}

fn new_files(alloc: Global, comes: &mut Comes) -> Option<MemProber> {
    MemProber::new(alloc, taken(alloc, &mut comes.answers), ROOM).ok()
}

/// Both, where both are there.
fn both<A: Drop, B: Drop>(a: Option<A>, b: Option<B>) -> Option<(A, B)> {
    match a {
        Some(a) => match b {
            Some(b) => Some((a, b)),
            None => None,
        },
        None => None,
    }
}

impl Objects {
    /// The objects of a call with this input, to which this comes.
    pub fn new(alloc: Global, input: Bytes, comes: &mut Comes) -> Option<Self> {
        let ends = both(new_link(alloc, comes), new_sink(alloc, comes));
        let works = both(new_jobs(alloc, comes), new_files(alloc, comes));
        match both(ends, works) {
            Some(((link, sink), (jobs, files))) => Some(Objects {
                source: MemSource::new(input, taken(alloc, &mut comes.source)),
                sink,
                link,
                jobs,
                clock: MemClock::new(taken(alloc, &mut comes.readings)),
                files,
            }),
            None => None,
        }
    }
}

/// Makes the call, and gives its status and its disk.
fn answered<D: Disk>(alloc: Global, words: &[Text], objects: &mut Objects, disk: D) -> (u8, D) {
    let Done {
        status,
        disk,
        world: _world,
    } = tws(
        alloc,
        words,
        &mut objects.source,
        &mut objects.sink,
        disk,
        &mut objects.link,
        &mut objects.jobs,
        &mut objects.clock,
        &mut objects.files,
    );
    (status, disk)
}

/// What a call over a disk gave.
#[derive(Clone, Copy)]
pub struct Ended {
    pub status: u8,
    /// Whether the disk can be synced once more.
    pub syncs: bool,
}

/// Leaves the bytes of a disk in their place.
fn left(alloc: Global, file: &mut Bytes, bytes: &[u8], ended: Ended) -> Option<Ended> {
    match copied(alloc, bytes) {
        Some(bytes) => {
            *file = bytes;
            Some(ended)
        }
        None => None,
    }
}

/// Makes the call over a disk with these bytes, and leaves its bytes in their place.
pub fn called(
    alloc: Global,
    words: &[Text],
    objects: &mut Objects,
    file: &mut Bytes,
    fails: Items<u32>,
) -> Option<Ended> {
    match MemDisk::new(alloc, taken(alloc, file), fails, DISK_ROOM) {
        Ok(disk) => {
            let (status, mut disk) = answered(alloc, words, objects, disk);
            let syncs = disk.sync().is_ok();
            left(alloc, file, disk.bytes(), Ended { status, syncs })
        }
        Err(_) => None,
    }
}

/// The same, where a write that fails leaves half of its piece.
pub fn called_over_torn(
    alloc: Global,
    words: &[Text],
    objects: &mut Objects,
    file: &mut Bytes,
    fails: Items<u32>,
) -> Option<Ended> {
    match CrashDisk::new(alloc, taken(alloc, file), fails, ROOM) {
        Ok(disk) => {
            let (status, mut disk) = answered(alloc, words, objects, disk);
            let syncs = disk.sync().is_ok();
            left(alloc, file, disk.bytes(), Ended { status, syncs })
        }
        Err(_) => None,
    }
}

/// The calls of the disk that fail.
pub fn disk_fails(alloc: Global, comes: &mut Comes) -> Items<u32> {
    taken(alloc, &mut comes.disk)
}
