//! How launches end.
ghost use Rattle.std.specs.Prelude.{◌≡◌, ◌&&◌, ◌==◌};
ghost use Rattle.model.specs.Facts.{code_of, end_of};
ghost use Rattle.owner_rows.specs.Outcomes.{told_outcome};

use base_types::{Body, JobNo};

/// How a launch ended.
#[derive(Clone, Copy, Debug)]
pub enum Outcome {
    /// The return code met the job's condition.
    EndedGood,
    /// It did not.
    EndedBad,
    /// The launch could not be started.
    Failed,
    /// The workstation stopped while the launch was open.
    Lost,
}

/// The two launches are one.
fn is_same(j: u64, number: u32, k: &JobNo, n: u32) -> bool
    ensures { result ≡ ((j == k.now) && (number == n)) }
{
    j == u64::from(k.0) && number == n
}

/// The end of this launch that a body tells.
pub(crate) fn end_in(j: u64, number: u32, body: &Body) -> Option<Outcome>
    ensures { told_outcome result ≡ end_of j number body.now }
{
    match body {
        Body::Failed(k, n) => {
            if is_same(j, number, k, *n) {
                Some(Outcome::Failed)
            } else {
                None
            }
        }
        Body::Lost(k, n) => {
            if is_same(j, number, k, *n) {
                Some(Outcome::Lost)
            } else {
                None
            }
        }
        Body::Ended(k, n, _, good) => {
            if is_same(j, number, k, *n) {
                if *good {
                    Some(Outcome::EndedGood)
                } else {
                    Some(Outcome::EndedBad)
                }
            } else {
                None
            }
        }
        _ => None,
    }
}

/// The end of this launch that a body tells, with its return code where there is one.
pub(crate) fn code_in(j: u64, number: u32, body: &Body) -> Option<Option<i32>>
    ensures { result ≡ code_of j number body.now }
{
    match body {
        Body::Failed(k, n) | Body::Lost(k, n) => {
            if is_same(j, number, k, *n) {
                Some(None)
            } else {
                None
            }
        }
        Body::Ended(k, n, rc, _) => {
            if is_same(j, number, k, *n) {
                Some(Some(*rc))
            } else {
                None
            }
        }
        _ => None,
    }
}
