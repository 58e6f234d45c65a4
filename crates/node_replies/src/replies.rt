//! The answers to lines that give a command or are for the node itself.
ghost use Rattle.std.specs.Prelude.{◌≡◌, ◌++◌, IfOk, OnOk};
ghost use Rattle.std.specs.String.{string_bytes};
ghost use Rattle.node_replies.specs.Replies as spec;

use base_types::{Net, NoMemory, Text, Ws};
use report_text::name;
use std::alloc::{AllocError, Global};

/// Why a line is refused: by its form, its names, the day of a plan, or the step of the node.
#[derive(Clone, Copy)]
pub enum Refusal {
    /// The line begins with no command.
    UnknownCommand,
    /// An argument has not its form, or is missing.
    BadArgument,
    /// An argument is one too many.
    TooMany,
    /// Nothing has a name that the line gives.
    UnknownName,
    /// More streams or jobs run on the day than a plan may have.
    Limit,
    /// A time of the day has no moment.
    OutOfRange,
    /// A workstation is not in the network.
    NotInNetwork,
    /// The workstation is no neighbour.
    NotNeighbour,
    /// The node is not the master, which alone makes plans.
    NotMaster,
    /// A job has no live launch.
    NoProcess,
    /// There is no such dependency to fulfil.
    NoDep,
    /// There is no further run.
    RunsSpent,
    /// There are no further numbers for streams or jobs.
    NumbersSpent,
    /// The plan would have more streams or jobs than it may.
    PlanFull,
    /// The entry that the line asks for is too long, or the reply is.
    TooLong,
}

/// `kept A>W PLACE`, of a command that was typed at `from` for `to` and is kept at this place, from 1, of the orders
/// between them. A workstation outside the network has the empty name.
pub fn kept(alloc: Global, net: &Net, from: Ws, to: Ws, place: u32) -> Result<Text, NoMemory>
    ensures { IfOk result (λ t. t ≡ spec.kept_line net.now from to place) }
{
    let mut out = String::new(alloc);
    write_kept(&mut out, name(net, &from), name(net, &to), place)?;
    Ok(Text::from_string(out))
}

fn write_kept(out: &mut String, from: &str, to: &str, place: u32) -> Result<(), AllocError>
    ensures { OnOk result (string_bytes out.new ≡ string_bytes out.old ++ spec.kept_of from.now to.now place) }
{
    write!(out, "kept {from}>{to} {place}\n")
}

/// `link W`: the link to W was asked to begin.
pub fn link_asked(alloc: Global, net: &Net, w: Ws) -> Result<Text, NoMemory>
    ensures { IfOk result (λ t. t ≡ spec.link_line net.now w) }
{
    let mut out = String::new(alloc);
    write_asked(&mut out, "link", name(net, &w))?;
    Ok(Text::from_string(out))
}

/// `unlink W`: the link to W was asked to end.
pub fn unlink_asked(alloc: Global, net: &Net, w: Ws) -> Result<Text, NoMemory>
    ensures { IfOk result (λ t. t ≡ spec.unlink_line net.now w) }
{
    let mut out = String::new(alloc);
    write_asked(&mut out, "unlink", name(net, &w))?;
    Ok(Text::from_string(out))
}

fn write_asked(out: &mut String, what: &str, name: &str) -> Result<(), AllocError>
    ensures { OnOk result (string_bytes out.new ≡ string_bytes out.old ++ spec.asked_of what.now name.now) }
{
    write!(out, "{what} {name}\n")
}

/// `plan RUN`: the plan of a new day was made, with this run.
pub fn planned(alloc: Global, run: u32) -> Result<Text, NoMemory>
    ensures { IfOk result (λ t. t ≡ spec.plan_line run) }
{
    let mut out = String::new(alloc);
    write_planned(&mut out, run)?;
    Ok(Text::from_string(out))
}

fn write_planned(out: &mut String, run: u32) -> Result<(), AllocError>
    ensures { OnOk result (string_bytes out.new ≡ string_bytes out.old ++ spec.plan_line run) }
{
    write!(out, "plan {run}\n")
}

/// `shutdown`: the node ends.
pub fn shutdown(alloc: Global) -> Result<Text, NoMemory>
    ensures { IfOk result (λ t. t ≡ spec.shutdown_line) }
{
    Text::of(alloc, "shutdown\n")
}

/// `refused KIND`: the line was refused for this reason, which is spelled as its variant.
pub fn refused(alloc: Global, refusal: Refusal) -> Result<Text, NoMemory>
    ensures { IfOk result (λ t. t ≡ spec.refused_line refusal) }
{
    let mut out = String::new(alloc);
    write_refused(&mut out, word(refusal))?;
    Ok(Text::from_string(out))
}

fn write_refused(out: &mut String, word: &str) -> Result<(), AllocError>
    ensures { OnOk result (string_bytes out.new ≡ string_bytes out.old ++ spec.refused_of word.now) }
{
    write!(out, "refused {word}\n")
}

fn word(refusal: Refusal) -> &'static str
    ensures { result.now ≡ spec.refusal_word refusal }
{
    match refusal {
        Refusal::UnknownCommand => "UnknownCommand",
        Refusal::BadArgument => "BadArgument",
        Refusal::TooMany => "TooMany",
        Refusal::UnknownName => "UnknownName",
        Refusal::Limit => "Limit",
        Refusal::OutOfRange => "OutOfRange",
        Refusal::NotInNetwork => "NotInNetwork",
        Refusal::NotNeighbour => "NotNeighbour",
        Refusal::NotMaster => "NotMaster",
        Refusal::NoProcess => "NoProcess",
        Refusal::NoDep => "NoDep",
        Refusal::RunsSpent => "RunsSpent",
        Refusal::NumbersSpent => "NumbersSpent",
        Refusal::PlanFull => "PlanFull",
        Refusal::TooLong => "TooLong",
    }
}
