//! What stands at a place of a file, by a window on the bytes behind it.
ghost use Rattle.std.specs.Prelude.{◌≡◌, ◌+◌, ◌<◌, ◌≤◌, ◌^◌, ℕ, List, length, take};
ghost use Rattle.outside.specs.Records.{longest_file};
ghost use Rattle.kept_files.specs.Found.{IsBounded, IsFound};

use base_types::{LONGEST_ENTRY, LONGEST_FILE};
use byte_fields::take_u32;

/// What a window shows.
#[derive(Clone, Copy)]
pub(crate) enum Found {
    /// A gate that is not open.
    Closed,
    /// An open gate without a record, or nothing.
    Broken,
    /// A record, whose body has so many bytes.
    Record(u32),
    /// The front of a record, which has so many bytes with its gate and its length: more than the window.
    Longer(u32),
}

/// What a window of a size shows, which begins at a place. A window of fewer bytes shows the end of the file.
pub(crate) fn found_in(window: &[u8], size: u32, place: u64) -> Found
    requires some { 5 ≤ size }
    requires fits { length window.now ≤ size }
    requires low { place < longest_file }
    ensures found { (bytes : List ℕ) → window.now ≡ take size bytes → IsFound place size window.now bytes result }
    ensures bounds { IsBounded size (length window.now) place result }
{
    let [gate, ..] = window else {
        return Found::Broken;
    };
    if *gate != 1 {
        return Found::Closed;
    }
    let Ok((count, _)) = take_u32(window, 1) else {
        return Found::Broken;
    };
    if count > LONGEST_ENTRY {
        return Found::Broken;
    }
    if place + 5 + u64::from(count) >= u64::from(LONGEST_FILE) {
        return Found::Broken;
    }
    let whole = 5 + count;
    if whole as usize <= window.len() {
        return Found::Record(count);
    }
    if window.len() < size as usize {
        return Found::Broken;
    }
    Found::Longer(whole)
}
