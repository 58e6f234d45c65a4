//! Clauses of which several are printed as one.
ghost use Rattle.std.specs.Prelude.{◌≡◌, ◌++◌, IfOk, OnOk, codes, map};
ghost use Rattle.composer_print.specs.Texts.{begun_after, texts_from};
ghost use Rattle.syntax.specs.Quotes.{quoted_text};
ghost use Rattle.composer_print.specs.Clauses.{pred_text, need_text, prompt_text};
ghost use Rattle.composer_print.specs.Scopes as scope;
ghost use Rattle.composer_print.specs.Steps.{joined_text, keyword_of, texts_of};

use crate::jobs::Jobs;
use crate::kinds::Joined;
use crate::leads::write_lead;
use crate::scopes::{write_need, write_pred};
use base_types::Text;
use composer_parser::{Clause, Lined, Need, Pred, PromptItem};
use std::io::{self, Write};
use syntax::write_quoted;

#[tactic(auto, unfolding(crate::specs::Scopes::preds_in))]
fn preds_in(clause: &Clause) -> &[Pred]
    ensures { result.now ≡ scope.preds_in clause.now }
{
    match clause {
        Clause::Follows(all) => all.as_slice(),
        _ => &[],
    }
}

#[tactic(auto, unfolding(crate::specs::Scopes::needs_in))]
fn needs_in(clause: &Clause) -> &[Need]
    ensures { result.now ≡ scope.needs_in clause.now }
{
    match clause {
        Clause::Needs(all) => all.as_slice(),
        _ => &[],
    }
}

#[tactic(auto, unfolding(crate::specs::Scopes::prompts_in))]
fn prompts_in(clause: &Clause) -> &[PromptItem]
    ensures { result.now ≡ scope.prompts_in clause.now }
{
    match clause {
        Clause::Prompt(all) => all.as_slice(),
        _ => &[],
    }
}

#[tactic(auto, unfolding(crate::specs::Scopes::files_in))]
fn files_in(clause: &Clause) -> &[Text]
    ensures { result.now ≡ scope.files_in clause.now }
{
    match clause {
        Clause::Opens(all) => all.as_slice(),
        _ => &[],
    }
}

/// Writes what is followed, behind the keyword or behind what the list has already. Answers whether the list is begun.
fn write_preds<'a>(
    out: &mut Vec<u8>,
    jobs: &Jobs<'a>,
    home: &'a Option<Text>,
    preds: &'a [Pred],
    begun: bool,
) -> io::Result<bool>
    ensures text { OnOk result (out.new.items ≡ out.old.items ++ texts_from (codes ", ") (codes " FOLLOWS ") begun
        (map (λ p. pred_text (scope.normal_pred jobs.now home.now p)) preds.now)) }
    ensures begun { IfOk result (λ b. b ≡ begun_after begun
        (map (λ p. pred_text (scope.normal_pred jobs.now home.now p)) preds.now)) }
{
    let mut stands = begun;
    for pred in preds {
        write_lead(out, ", ", " FOLLOWS ", stands)?;
        write_pred(out, jobs, home, pred)?;
        stands = true;
    }
    Ok(stands)
}

/// The same of resources.
fn write_needs(
    out: &mut Vec<u8>,
    own: &Option<Text>,
    needs: &[Need],
    begun: bool,
) -> io::Result<bool>
    ensures text { OnOk result (out.new.items ≡ out.old.items ++ texts_from (codes ", ") (codes " NEEDS ") begun
        (map (λ n. need_text (scope.normal_need own.now n)) needs.now)) }
    ensures begun { IfOk result (λ b. b ≡ begun_after begun
        (map (λ n. need_text (scope.normal_need own.now n)) needs.now)) }
{
    let mut stands = begun;
    for need in needs {
        write_lead(out, ", ", " NEEDS ", stands)?;
        write_need(out, own, need)?;
        stands = true;
    }
    Ok(stands)
}

#[tactic(auto, unfolding(crate::specs::Clauses::prompt_text))]
fn write_prompt(out: &mut Vec<u8>, prompt: &PromptItem) -> io::Result<()>
    ensures { OnOk result (out.new.items ≡ out.old.items ++ prompt_text prompt.now) }
{
    match prompt {
        PromptItem::Name(name) => write!(out, "{}", name.as_str()),
        PromptItem::Own(text) => write_quoted(out, text),
    }
}

/// The same of prompts.
fn write_prompts(out: &mut Vec<u8>, prompts: &[PromptItem], begun: bool) -> io::Result<bool>
    ensures text { OnOk result (out.new.items ≡ out.old.items ++ texts_from (codes ", ") (codes " PROMPT ") begun
        (map prompt_text prompts.now)) }
    ensures begun { IfOk result (λ b. b ≡ begun_after begun (map prompt_text prompts.now)) }
{
    let mut stands = begun;
    for prompt in prompts {
        write_lead(out, ", ", " PROMPT ", stands)?;
        write_prompt(out, prompt)?;
        stands = true;
    }
    Ok(stands)
}

/// The same of files.
fn write_files(out: &mut Vec<u8>, files: &[Text], begun: bool) -> io::Result<bool>
    ensures text { OnOk result (out.new.items ≡ out.old.items ++ texts_from (codes ", ") (codes " OPENS ") begun
        (map quoted_text files.now)) }
    ensures begun { IfOk result (λ b. b ≡ begun_after begun (map quoted_text files.now)) }
{
    let mut stands = begun;
    for file in files {
        write_lead(out, ", ", " OPENS ", stands)?;
        write_quoted(out, file)?;
        stands = true;
    }
    Ok(stands)
}

/// Writes what a clause adds to the list of a kind. Answers whether the list is begun.
#[tactic(auto, unfolding(crate::specs::Steps::texts_of))]
fn write_added<'a>(
    out: &mut Vec<u8>,
    kind: Joined,
    jobs: &Jobs<'a>,
    home: &'a Option<Text>,
    own: &'a Option<Text>,
    clause: &'a Lined<Clause>,
    begun: bool,
) -> io::Result<bool>
    ensures text { OnOk result (out.new.items ≡ out.old.items ++ texts_from (codes ", ") (keyword_of kind) begun
        (texts_of kind jobs.now home.now own.now clause.now)) }
    ensures begun { IfOk result (λ b. b ≡ begun_after begun (texts_of kind jobs.now home.now own.now clause.now)) }
{
    match kind {
        Joined::Follows => write_preds(out, jobs, home, preds_in(&clause.item), begun),
        Joined::Needs => write_needs(out, own, needs_in(&clause.item), begun),
        Joined::Prompt => write_prompts(out, prompts_in(&clause.item), begun),
        Joined::Opens => write_files(out, files_in(&clause.item), begun),
    }
}

/// Writes one clause with all that the clauses of a kind name, where there is any.
pub(crate) fn write_joined<'a>(
    out: &mut Vec<u8>,
    kind: Joined,
    jobs: &Jobs<'a>,
    home: &'a Option<Text>,
    own: &'a Option<Text>,
    clauses: &'a [Lined<Clause>],
) -> io::Result<()>
    ensures { OnOk result (out.new.items ≡ out.old.items ++ joined_text kind jobs.now home.now own.now clauses.now) }
{
    let mut begun = false;
    for clause in clauses {
        begun = write_added(out, kind, jobs, home, own, clause, begun)?;
    }
    Ok(())
}
