//! The key of the network, where a file holds it.

use crate::seals::NetworkKey;
use std::alloc::Global;
use std::fs::{Files, Metadata, OpenFile, OpenOptions};
use std::io::{ErrorKind, Read};
use std::os::unix::fs::{MetadataExt, PermissionsExt};
use std::{fs, io};

/// The file in the current folder that holds the secret text.
const FILE: &str = "tws.key";

/// The least and the most bytes of a secret text.
const LEAST: usize = 32;

const MOST: usize = 1_024;

/// How many bytes of the file are read: more than a text and the end of its line have.
const MOST_READ: u64 = 1_026;

/// What the owner's group and all others may do with a file.
const OTHERS: u32 = 0o077;

/// Whether nothing has the name of the file, not even a link to what is not there.
fn is_nothing<R: Files>(rt: &R) -> bool {
    match fs::symlink_metadata(rt, FILE) {
        Ok(_) => false,
        Err(error) => error.kind() == ErrorKind::NotFound,
    }
}

/// Whether the file is this process's user's, and nobody else may read or write it.
fn is_own(about: &Metadata) -> bool {
    about.uid() == libc::geteuid() && about.permissions().mode() & OTHERS == 0
}

/// The key of the network, or none where nothing has the file's name. It fails where the file cannot be read, where it is
/// another user's, where others than its owner may read or write it, and where its text is too short or too long. A line
/// feed at the end does not count.
pub fn read_key<R: Files>(alloc: Global, rt: &R) -> io::Result<Option<NetworkKey>> {
    let mut options = OpenOptions::new();
    options.read(true);
    let file = match options.open(rt, FILE) {
        Ok(file) => file,
        Err(error) => {
            if error.kind() == ErrorKind::NotFound && is_nothing(rt) {
                return Ok(None);
            }
            return Err(error);
        }
    };
    if !is_own(&file.metadata()?) {
        return Err(ErrorKind::PermissionDenied.into());
    }
    let mut bytes = Vec::new(alloc);
    file.take(MOST_READ).read_to_end(&mut bytes)?;
    let bytes = bytes.as_slice();
    let text = bytes.strip_suffix(b"\n").unwrap_or(bytes);
    if text.len() < LEAST || text.len() > MOST {
        return Err(ErrorKind::InvalidData.into());
    }
    Ok(Some(NetworkKey::of(text)))
}
