//! What a script has set up, and the last call that it made.
use crate::entries::put_history_starts;
use crate::objects::{Comes, Ended, Objects, called, called_over_torn, copied, disk_fails};
use crate::texts::Told;
use base_types::{Bytes, Items, Text, Ws};
use outside::Arrival;
use std::alloc::Global;

pub struct Stage {
    /// The words and the input of each call.
    pub words: Items<Text>,
    pub input: Bytes,
    /// Whether the next line is one of the input.
    pub reads_input: bool,
    /// What comes to the next call.
    pub comes: Comes,
    /// What the disk holds, and what was kept aside.
    pub file: Bytes,
    pub aside: Bytes,
    /// The launches that were started since the disk was set, as lines of a history.
    pub starts: Told,
    pub noted: Told,
    /// The last call.
    pub ended: Ended,
    pub objects: Objects,
}

impl Drop for Stage {
    fn drop(self) {
        let Stage {
            words: _words,
            input: _input,
            reads_input: _reads_input,
            comes: _comes,
            file: _file,
            aside: _aside,
            starts: _starts,
            noted: _noted,
            ended: _ended,
            objects: _objects,
        } = self;
    }
}

impl Stage {
    pub fn new(alloc: Global) -> Option<Self> {
        let mut comes = Comes::new(alloc);
        let objects = Objects::new(alloc, Items::new(alloc), &mut comes)?;
        Some(Stage {
            words: Items::new(alloc),
            input: Items::new(alloc),
            reads_input: false,
            comes,
            file: Items::new(alloc),
            aside: Items::new(alloc),
            starts: Told::new(alloc),
            noted: Told::new(alloc),
            ended: Ended {
                status: 0,
                syncs: true,
            },
            objects,
        })
    }

    /// Calls `tws` over new objects, to which this comes, and over the disk. None where there is no memory for them.
    pub fn call(&mut self, alloc: Global) -> Option<u8> {
        if !self.renew(alloc) {
            return None;
        }
        match self.call_over_disk(alloc) {
            Some(ended) => {
                self.ended = ended;
                put_history_starts(&mut self.starts, &self.objects.jobs);
                Some(ended.status)
            }
            None => None,
        }
    }

    /// Makes the objects anew, to which this comes, and tells whether there is memory for them.
    fn renew(&mut self, alloc: Global) -> bool {
        match copied(alloc, self.input.as_slice()) {
            Some(input) => self.renew_with(alloc, input),
            None => false,
        }
    }

    fn renew_with(&mut self, alloc: Global, input: Bytes) -> bool {
        match Objects::new(alloc, input, &mut self.comes) {
            Some(objects) => {
                self.objects = objects;
                true
            }
            None => false,
        }
    }

    fn call_over_disk(&mut self, alloc: Global) -> Option<Ended> {
        let fails = disk_fails(alloc, &mut self.comes);
        let words = self.words.as_slice();
        if self.comes.tears {
            self.comes.tears = false;
            called_over_torn(alloc, words, &mut self.objects, &mut self.file, fails)
        } else {
            called(alloc, words, &mut self.objects, &mut self.file, fails)
        }
    }

    /// Each frame that the last call sent comes: from this workstation, or from a client.
    pub fn hear_sent(&mut self, alloc: Global, from: &Option<Ws>) -> bool {
        let sent = self.objects.link.sent();
        for i in 0..sent.len() {
            if let Some((_, bytes)) = sent.get(i) {
                if !arrive(alloc, &mut self.comes, from, bytes) {
                    return false;
                }
            }
        }
        true
    }

    /// The last reply of the last call comes from this workstation.
    pub fn hear_reply(&mut self, alloc: Global, from: &Option<Ws>) -> bool {
        let replied = self.objects.link.replied();
        match replied.get(replied.len().saturating_sub(1)) {
            Some((_, bytes)) => arrive(alloc, &mut self.comes, from, bytes),
            None => false,
        }
    }
}

/// Adds bytes of a workstation or of a client to what comes.
fn arrive(alloc: Global, comes: &mut Comes, from: &Option<Ws>, bytes: &[u8]) -> bool {
    let Some(bytes) = copied(alloc, bytes) else {
        return false;
    };
    let arrival = match from {
        Some(from) => Arrival::Bytes(*from, bytes),
        None => Arrival::Client(bytes),
    };
    comes.arrivals.push(arrival).is_ok()
}
