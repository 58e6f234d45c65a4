//! The count of an object's faults.
ghost use Rattle.outside.specs.Causes.{HasCause};

use crate::commons::Commons;
use crate::logs::{Value, cause_of};
use outside::Failed;
use std::fs::{File, Files};
use std::io;
use std::time::Clock;

/// The answer of a call, counted where the call failed. What the system said of the failure stands in the log.
pub fn counted<T, R: Files<File = File> + Clock + Drop>(
    faults: &mut u64,
    commons: &Commons<R>,
    call: &'static str,
    answer: io::Result<T>,
) -> Result<T, Failed>
    ensures { HasCause faults.old faults.new result }
{
    if let Err(error) = &answer {
        let fields = [("call", Value::Word(call)), cause_of(error)];
        commons.tell("failed", &fields);
    }
    counted_alone(faults, answer)
}

/// The answer of a call, counted where the call failed, of which the log tells in its own way.
pub fn counted_alone<T>(faults: &mut u64, answer: io::Result<T>) -> Result<T, Failed>
    ensures { HasCause faults.old faults.new result }
{
    match answer {
        Ok(value) => Ok(value),
        Err(_) => {
            *faults = faults.saturating_add(1);
            Err(Failed)
        }
    }
}
