//! Feeds, counts, objects and choices.
ghost use Rattle.std.specs.Prelude.{◌≡◌, ◌++◌, ◌∷◌, ◌<◌, ◌^◌, OnOk};
ghost use Rattle.std.specs.List.{All};
ghost use Rattle.model.specs.Fields.{u16_bytes};
ghost use Rattle.model.specs.Fit.{IsFitSeen};
ghost use Rattle.model.specs.Ranges.{CountInRange, FeedInRange, IsU16, ObjInRange};
ghost use Rattle.model.specs.Spelling.{count_bytes, feed_bytes, obj_bytes, seen_bytes};
ghost use Rattle.model.specs.Spelling as spelled;

use crate::writing::choices::{put_numbered, put_short, put_shorts};
use base_types::{Bytes, Feed, NoMemory, Obj, OnUntil, Recovery, Seen, Why, Ws};
use byte_fields::{put_u8, put_u16, put_u32};

/// Adds a feed: its choice and its workstations.
pub(crate) fn put_feed(out: &mut Bytes, feed: &Feed) -> Result<(), NoMemory>
    ensures added { OnOk result (out.new ≡ out.old ++ feed_bytes feed.now) }
    ensures range { OnOk result (FeedInRange feed.now) }
{
    match feed {
        Feed::Events(w) => put_short(out, 0, w.0),
        Feed::Orders(a, w) => put_shorts(out, 1, a.0, w.0),
    }
}

/// Adds how many counts there are, and each workstation with its count.
pub(crate) fn put_seen(out: &mut Bytes, seen: &Seen) -> Result<(), NoMemory>
    requires { IsFitSeen seen.now }
    ensures added { OnOk result (out.new ≡ out.old ++ seen_bytes seen.now) }
    ensures range { OnOk result (All CountInRange seen.now) }
{
    put_u32(out, seen.len() as u32)?;
    for pair in seen.as_slice() {
        put_count(out, pair)?;
    }
    Ok(())
}

/// Adds a workstation and its count.
fn put_count(out: &mut Bytes, pair: &(Ws, u32)) -> Result<(), NoMemory>
    ensures added { OnOk result (out.new ≡ out.old ++ count_bytes pair.now) }
    ensures range { OnOk result (CountInRange pair.now) }
{
    let (w, count) = pair;
    put_u16(out, w.0)?;
    put_u32(out, *count)
}

/// Adds a job or a stream: its choice and its number.
pub(crate) fn put_obj(out: &mut Bytes, obj: &Obj) -> Result<(), NoMemory>
    ensures added { OnOk result (out.new ≡ out.old ++ obj_bytes obj.now) }
    ensures range { OnOk result (ObjInRange obj.now) }
{
    match obj {
        Obj::Job(job) => put_numbered(out, 0, job.0),
        Obj::Stream(stream) => put_numbered(out, 1, stream.0),
    }
}

/// Adds a choice and the object that it is about.
pub(crate) fn put_for(out: &mut Bytes, choice: u8, obj: &Obj) -> Result<(), NoMemory>
    ensures added { OnOk result (out.new ≡ out.old ++ choice ∷ obj_bytes obj.now) }
    ensures range { OnOk result (ObjInRange obj.now) }
{
    put_u8(out, choice)?;
    put_obj(out, obj)
}

/// Adds a choice, an object and the number of its dependency.
pub(crate) fn put_dependency(
    out: &mut Bytes,
    choice: u8,
    obj: &Obj,
    dep: u16,
) -> Result<(), NoMemory>
    ensures added { OnOk result (out.new ≡ out.old ++ (choice ∷ obj_bytes obj.now ++ u16_bytes dep)) }
    ensures range { OnOk result (ObjInRange obj.now × IsU16 dep) }
{
    put_for(out, choice, obj)?;
    put_u16(out, dep)
}

/// The choice of what a passed UNTIL does.
pub(crate) fn until_choice(mark: OnUntil) -> u8
    ensures { result ≡ spelled.until_code mark }
{
    match mark {
        OnUntil::Suppr => 0,
        OnUntil::Cont => 1,
        OnUntil::Canc => 2,
    }
}

/// The choice of what follows a bad end.
pub(crate) fn recovery_choice(recovery: Recovery) -> u8
    ensures { result ≡ spelled.recovery_code recovery }
{
    match recovery {
        Recovery::Stop => 0,
        Recovery::Continue => 1,
        Recovery::Rerun => 2,
    }
}

/// The choice of a reason.
pub(crate) fn why_choice(why: Why) -> u8
    ensures { result ≡ spelled.why_code why }
{
    match why {
        Why::NotMine => 1,
        Why::NotThere => 2,
        Why::Running => 3,
        Why::NotRunning => 4,
        Why::NotEnded => 5,
        Why::Ended => 6,
        Why::AlreadyThere => 7,
        Why::OutOfRange => 8,
        Why::NotMaster => 9,
        Why::NotBuilt => 10,
    }
}
