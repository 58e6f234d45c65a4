//! What becomes of an entry that is to be kept.
use base_types::{Body, Entry, Feed, Moment, Ws};
use entry_codec::write_entry;
use node_inputs::{NodeEnd, keep};
use outside::Keeper;
use outside_mem::MemKeeper;
use std::alloc::Global;
use std::test::Fail;
use test_builders::listed;

/// The numbers of the calls that fail, the room of the keeper in bytes, what came of the entry ('k' kept, 'd' the disk
/// failed, 'o' another end), and how many bodies are kept then.
type Row<'a> = (&'a [u32], u32, char, u32);

fn letter(end: &Result<(), NodeEnd>) -> char {
    match end {
        Ok(()) => 'k',
        Err(NodeEnd::DiskFault) => 'd',
        Err(_) => 'o',
    }
}

/// What came of an entry of 17 bytes, and how many bodies are kept then.
fn kept_by(alloc: Global, fails: &[u32], room: u32) -> Result<(char, u32), Fail> {
    let mut keeper = MemKeeper::new(alloc, listed(alloc, fails)?, room)?;
    let entry = Entry {
        feed: Feed::Events(Ws(0)),
        place: 1,
        body: Body::Clock(Moment(100)),
    };
    let bytes = write_entry(alloc, &entry)?;
    if bytes.len() > 4_194_304 {
        return Err("too long")?;
    }
    let end = keep(alloc, &mut keeper, &entry);
    Ok((letter(&end), keeper.count()))
}

/// The place of the first row, from 0, that comes out otherwise.
fn first_wrong(alloc: Global, rows: &[Row]) -> Result<Option<usize>, Fail> {
    for (i, (fails, room, wanted, count)) in rows.iter().enumerate() {
        if kept_by(alloc, *fails, *room)? != (*wanted, *count) {
            return Ok(Some(i));
        }
    }
    Ok(None)
}

static ROWS: [Row; 4] = [
    (&[], 64, 'k', 1),
    (&[2], 64, 'k', 1),
    (&[1], 64, 'd', 0),
    (&[], 16, 'd', 0),
];

#[test]
fn an_entry_is_kept_or_its_disk_failed(rt: HostRuntime) -> Result<(), Fail> {
    assert_eq!(rt; first_wrong(rt.alloc(), &ROWS)?, None);
    Ok(())
}
