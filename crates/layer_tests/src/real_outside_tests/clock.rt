//! The system's clock.
use outside::Clock;
use real_outside::SystemClock;
use std::test::Fail;
use std::time::{SystemTime, UNIX_EPOCH};

#[test]
fn the_clock_reads_the_seconds_since_1970(rt: HostRuntime) -> Result<(), Fail> {
    let mut clock = SystemClock::new(rt);
    let first = clock.now();
    let second = clock.now();
    let now = SystemTime::now(&rt)?.duration_since(UNIX_EPOCH)?.as_secs();
    assert!(rt; 1_700_000_000 < first.0 && first.0 <= second.0 && second.0 <= now);
    Ok(())
}
