//! The lines of dependencies.
ghost use Rattle.std.specs.Prelude.{◌≡◌, ◌++◌, OnOk, codes, flat_map};
ghost use Rattle.syntax.specs.Quotes.{quoted_text};
ghost use Rattle.plan_listing.specs.Dependencies as spec;

use base_types::{Dep, DraftDep, Net, OnUntil, PromptRef, Text, Ws};
use report_text::name;
use std::io::{self, Write};
use syntax::write_quoted;

/// Writes a line for each dependency.
pub(crate) fn write_dependencies(out: &mut Vec<u8>, net: &Net, deps: &[DraftDep]) -> io::Result<()>
    ensures { OnOk result (out.new.items ≡ out.old.items ++ flat_map (spec.draft_dep_line net.now) deps.now) }
{
    for dep in deps {
        write_draft_dep(out, net, dep)?;
    }
    Ok(())
}

#[tactic(auto, unfolding(crate::specs::Dependencies::draft_dep_line))]
fn write_draft_dep(out: &mut Vec<u8>, net: &Net, dep: &DraftDep) -> io::Result<()>
    ensures { OnOk result (out.new.items ≡ out.old.items ++ spec.draft_dep_line net.now dep.now) }
{
    match dep {
        DraftDep::Follows(ws, stream, job) => write_follows(out, net, ws, stream, job),
        DraftDep::Plain(dep) => write_dep(out, net, dep),
    }
}

fn write_follows(
    out: &mut Vec<u8>,
    net: &Net,
    ws: &Ws,
    stream: &Text,
    job: &Option<Text>,
) -> io::Result<()>
    ensures { OnOk result (out.new.items ≡ out.old.items ++ spec.follows_line net.now ws.now stream.now job.now) }
{
    let ws = name(net, ws);
    match job {
        None => write!(out, "follows {ws}#{stream}\n"),
        Some(job) => write!(out, "follows {ws}#{stream}.{job}\n"),
    }
}

#[tactic(auto, unfolding(crate::specs::Dependencies::dep_line))]
fn write_dep(out: &mut Vec<u8>, net: &Net, dep: &Dep) -> io::Result<()>
    ensures { OnOk result (out.new.items ≡ out.old.items ++ spec.dep_line net.now dep.now) }
{
    match dep {
        Dep::FollowsJob(_) => Ok(()),
        Dep::FollowsStream(_) => Ok(()),
        Dep::Needs(resource, units) => {
            write!(out, "needs {units} {}\n", resource_name(net, *resource))
        }
        Dep::Prompt(PromptRef::Global(prompt)) => {
            write!(out, "ask {}\n", prompt_name(net, *prompt))
        }
        Dep::Prompt(PromptRef::Own(text)) => write_text(out, "ask ", text),
        Dep::At(time) => write!(out, "at {}\n", time.0),
        Dep::Until(time, then) => write!(out, "until {} {}\n", time.0, until_word(*then)),
        Dep::Outside(path) => write_text(out, "opens ", path),
        Dep::Deadline(time) => write!(out, "deadline {}\n", time.0),
    }
}

fn write_text(out: &mut Vec<u8>, word: &str, text: &Text) -> io::Result<()>
    ensures { OnOk result (out.new.items ≡ out.old.items ++ (word.now ++ quoted_text text.now ++ codes "\n")) }
{
    write!(out, "{word}")?;
    write_quoted(out, text)?;
    write!(out, "\n")
}

/// The name of a resource by its number from 1, and nothing where there is none.
fn resource_name(net: &Net, number: u16) -> &str
    ensures { result.now ≡ spec.resource_name net.now number }
{
    if number == 0 {
        return "";
    }
    match net.resources.get(usize::from(number) - 1) {
        Some(resource) => resource.name.as_str(),
        None => "",
    }
}

/// The name of a prompt by its number from 1, and nothing where there is none.
fn prompt_name(net: &Net, number: u16) -> &str
    ensures { result.now ≡ spec.prompt_name net.now number }
{
    if number == 0 {
        return "";
    }
    match net.prompts.get(usize::from(number) - 1) {
        Some(prompt) => prompt.name.as_str(),
        None => "",
    }
}

fn until_word(then: OnUntil) -> &'static str
    ensures { result.now ≡ spec.until_word then }
{
    match then {
        OnUntil::Suppr => "suppr",
        OnUntil::Cont => "cont",
        OnUntil::Canc => "canc",
    }
}
