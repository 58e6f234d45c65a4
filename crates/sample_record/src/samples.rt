//! The record of a sample.
ghost use Rattle.std.specs.Prelude.{◌≡◌, ◌≤◌, ◌++◌, IfOk, OnOk};
ghost use Rattle.sample_record.specs.Samples as spec;

use crate::agents::write_each;
use crate::rounds::write_steps;
use crate::streams::write_plan;
use base_types::{Bytes, Items, NoMemory};
use std::alloc::Global;
use std::io::{self, Write};

/// The record with so many jobs, at most 2000, whose streams and dependencies are drawn from this seed on.
///
/// `NoMemory` where memory runs out.
pub fn sample(alloc: Global, jobs: u32, seed: u32) -> Result<Bytes, NoMemory>
    requires { jobs ≤ 2000 }
    ensures { IfOk result (λ bytes. bytes ≡ spec.sample_of jobs seed) }
{
    let mut out = Vec::new(alloc);
    match write_sample(&mut out, alloc, jobs, seed) {
        Ok(()) => Ok(Items::of_vec(out)),
        Err(_) => Err(NoMemory),
    }
}

#[tactic(auto, unfolding(crate::specs::Samples::sample_of))]
fn write_sample(out: &mut Vec<u8>, alloc: Global, jobs: u32, seed: u32) -> io::Result<()>
    requires { jobs ≤ 2000 }
    ensures { OnOk result (out.new.items ≡ out.old.items ++ spec.sample_of jobs seed) }
{
    write!(out, "$NETWORK\nws M\n")?;
    write_each(out, "ws A", " M\n")?;
    write_plan(out, alloc, jobs, seed)?;
    write_steps(out, jobs)
}
