//! What a prober in memory answers and tells.
use base_types::Text;
use file_watch::Prober;
use outside::Failed;
use probe_mem::MemProber;
use std::alloc::Global;
use std::test::Fail;
use test_builders::listed;

/// A path, and what is answered: 'y' where the file is there, 'n' where it is not, 'f' where the call fails.
type Call<'a> = (&'a str, char);

fn letter(answer: &Result<bool, Failed>) -> char {
    match answer {
        Ok(true) => 'y',
        Ok(false) => 'n',
        Err(Failed) => 'f',
    }
}

/// The place, counted from 0, of the first call that is answered otherwise.
fn first_wrong(
    alloc: Global,
    prober: &mut MemProber,
    calls: &[Call],
) -> Result<Option<usize>, Fail> {
    for (i, (path, wanted)) in calls.iter().enumerate() {
        let path = Text::of(alloc, *path)?;
        if letter(&prober.seen(&path)) != *wanted {
            return Ok(Some(i));
        }
    }
    Ok(None)
}

/// The place, counted from 0, of the first call that is told otherwise.
fn first_told_wrong(prober: &MemProber, calls: &[Call]) -> Option<usize> {
    let asked = prober.asked();
    for (i, (path, wanted)) in calls.iter().enumerate() {
        let Some((answer, told)) = asked.get(i) else {
            return Some(i);
        };
        if letter(answer) != *wanted || told != path.as_bytes() {
            return Some(i);
        }
    }
    if asked.len() == calls.len() {
        None
    } else {
        Some(calls.len())
    }
}

static CALLS: [Call; 4] = [("a", 'n'), ("b", 'f'), ("a", 'y'), ("c", 'n')];

/// The third call has no room for its path.
static CRAMPED: [Call; 4] = [("abc", 'y'), ("de", 'y'), ("f", 'f'), ("g", 'f')];

static KEPT: [Call; 2] = [("abc", 'y'), ("de", 'y')];

#[test]
fn answers_come_in_turn_and_then_none_is_there(rt: HostRuntime) -> Result<(), Fail> {
    let alloc = rt.alloc();
    let answers = listed(alloc, &[Ok(false), Err(Failed), Ok(true)])?;
    let mut prober = MemProber::new(alloc, answers, 64)?;
    assert_eq!(rt; first_wrong(alloc, &mut prober, &CALLS)?, None);
    assert_eq!(rt; first_told_wrong(&prober, &CALLS), None);
    assert!(rt; prober.asked().is_whole());
    Ok(())
}

#[test]
fn a_call_past_the_room_fails_and_is_not_told(rt: HostRuntime) -> Result<(), Fail> {
    let alloc = rt.alloc();
    let answers = listed(alloc, &[Ok(true), Ok(true), Ok(true), Ok(true)])?;
    let mut prober = MemProber::new(alloc, answers, 5)?;
    assert_eq!(rt; first_wrong(alloc, &mut prober, &CRAMPED)?, None);
    assert_eq!(rt; first_told_wrong(&prober, &KEPT), None);
    assert!(rt; !prober.asked().is_whole());
    Ok(())
}
