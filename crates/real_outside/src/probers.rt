//! Who looks for the files that jobs wait for.
ghost use Rattle.std.specs.Prelude.{None};

use base_types::Text;
use file_watch::Prober;
use node_log::{Commons, Topic, Value, cause_of, counted_alone};
use outside::Failed;
use std::fs;
use std::fs::{File, Files};
use std::time::Clock;

/// Looks for files on this system. A path that does not begin with a slash is looked for from the node's folder on.
///
/// A folder is there too. Where the system cannot tell, because it may not look or a folder on the way is none, the call
/// fails; the log tells that at most once in a second.
#[derive(Drop)]
pub struct FileProber<R> {
    rt: R,
    commons: Commons<R>,
    faults: u64,
}

impl<R: Files<File = File> + Clock + Drop> FileProber<R> {
    /// One that has looked for nothing.
    pub fn new(rt: R, commons: Commons<R>) -> Self {
        FileProber {
            rt,
            commons,
            faults: 0,
        }
    }
}

impl<R: Files<File = File> + Clock + Drop> Prober for FileProber<R> {
    ghost asked = { λ _. None };

    ghost faults = { λ p. p.faults };

    fn seen(&mut self, path: &Text) -> Result<bool, Failed> {
        let there = fs::exists(&self.rt, path.as_str());
        if let Err(error) = &there {
            let fields = [("path", Value::Text(path.as_str())), cause_of(error)];
            self.commons.tell_rarely(Topic::Looked, "unseen", &fields);
        }
        counted_alone(&mut self.faults, there)
    }
}
