// How far a frame goes in some bytes.
ghost use Rattle.mail_frames.specs.Places.{IsReached, Scans};

use crate::places::{Place, Scanned};

/// The first so many bytes, and what they come to.
#[derive(Clone, Copy)]
pub struct Found {
    pub count: usize,
    pub seen: Scanned,
}

/// Goes on from a place of a frame to the frame's end, to a byte that breaks it, or to the end of the bytes.
pub fn scan(start: Place, bytes: &[u8]) -> Found
    requires { IsReached start }
    ensures { Scans start bytes.now result.count result.seen }
{
    let mut place = start;
    for (i, byte) in bytes.iter().enumerate() {
        match place.after(*byte) {
            Scanned::Open(next) => place = next,
            Scanned::Whole => {
                return Found {
                    count: i + 1,
                    seen: Scanned::Whole,
                };
            }
            Scanned::Bad => {
                return Found {
                    count: i,
                    seen: Scanned::Bad,
                };
            }
        }
    }
    Found {
        count: bytes.len(),
        seen: Scanned::Open(place),
    }
}
