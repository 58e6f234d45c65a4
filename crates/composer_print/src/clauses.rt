//! The clauses of an object.
ghost use Rattle.std.specs.Prelude.{◌≡◌, ◌++◌, OnOk, codes, flat_map};
ghost use Rattle.std.specs.Fmt.{decimal};
ghost use Rattle.composer_parser.specs.Clauses.{is_at, is_until, is_deadline, is_limit, is_carry};
ghost use Rattle.composer_print.specs.Clauses as spec;
ghost use Rattle.composer_print.specs.Scopes as scope;
ghost use Rattle.composer_print.specs.Steps.{single_text, kind_text, all_text};
ghost use Rattle.composer_print.specs.Streams.{items};
ghost use Rattle.composer_print.specs.Normal.{all_unlined};

use crate::days::write_time;
use crate::jobs::Jobs;
use crate::joined::write_joined;
use crate::kinds::{Joined, Once};
use base_types::{OnUntil, Text};
use composer_parser::{Clause, Lined};
use std::io::{self, Write};

#[tactic(auto, unfolding(crate::specs::Clauses::plus_text))]
fn write_plus(out: &mut Vec<u8>, days: &Option<u32>) -> io::Result<()>
    ensures { OnOk result (out.new.items ≡ out.old.items ++ spec.plus_text days.now) }
{
    match days {
        None => Ok(()),
        Some(n) => write!(out, " +{} DAYS", *n),
    }
}

fn write_moment(out: &mut Vec<u8>, minutes: u16, days: &Option<u32>) -> io::Result<()>
    ensures { OnOk result (out.new.items ≡ out.old.items ++ spec.moment_text minutes days.now) }
{
    write_time(out, minutes)?;
    write_plus(out, days)
}

/// Writes a moment behind its keyword.
fn write_timed(out: &mut Vec<u8>, keyword: &str, minutes: u16, days: &Option<u32>) -> io::Result<()>
    ensures { OnOk result (out.new.items ≡ out.old.items ++ (keyword.now ++ spec.moment_text minutes days.now)) }
{
    write!(out, "{keyword}")?;
    write_moment(out, minutes, days)
}

#[tactic(auto, unfolding(crate::specs::Clauses::until_text))]
fn write_action(out: &mut Vec<u8>, action: OnUntil) -> io::Result<()>
    ensures { OnOk result (out.new.items ≡ out.old.items ++ spec.until_text action) }
{
    match action {
        OnUntil::Suppr => Ok(()),
        OnUntil::Cont => write!(out, " ONUNTIL CONT"),
        OnUntil::Canc => write!(out, " ONUNTIL CANC"),
    }
}

fn write_until(
    out: &mut Vec<u8>,
    minutes: u16,
    days: &Option<u32>,
    action: OnUntil,
) -> io::Result<()>
    ensures { OnOk result (out.new.items ≡ out.old.items
        ++ (codes " UNTIL " ++ spec.moment_text minutes days.now ++ spec.until_text action)) }
{
    write_timed(out, " UNTIL ", minutes, days)?;
    write_action(out, action)
}

#[tactic(auto, unfolding(crate::specs::Clauses::priority_text))]
fn write_priority(out: &mut Vec<u8>, n: u32) -> io::Result<()>
    ensures { OnOk result (out.new.items ≡ out.old.items ++ spec.priority_text n) }
{
    if n == 100 {
        return write!(out, "HI");
    }
    if n == 101 {
        return write!(out, "GO");
    }
    write!(out, "{n}")
}

/// Writes a priority behind its keyword.
fn write_ranked(out: &mut Vec<u8>, n: u32) -> io::Result<()>
    ensures { OnOk result (out.new.items ≡ out.old.items ++ (codes " PRIORITY " ++ spec.priority_text n)) }
{
    write!(out, " PRIORITY ")?;
    write_priority(out, n)
}

fn write_limit(out: &mut Vec<u8>, n: u32) -> io::Result<()>
    ensures { OnOk result (out.new.items ≡ out.old.items ++ (codes " LIMIT " ++ decimal n)) }
{
    write!(out, " LIMIT {n}")
}

/// Writes a clause that stands once, and nothing of another.
#[tactic(auto, unfolding(crate::specs::Steps::single_text))]
fn write_single(out: &mut Vec<u8>, clause: &Clause) -> io::Result<()>
    ensures { OnOk result (out.new.items ≡ out.old.items ++ single_text clause.now) }
{
    match clause {
        Clause::At(minutes, days) => write_timed(out, " AT ", *minutes, days),
        Clause::Until(minutes, days, action) => write_until(out, *minutes, days, *action),
        Clause::Deadline(minutes, days) => write_timed(out, " DEADLINE ", *minutes, days),
        Clause::Priority(n) => write_ranked(out, *n),
        Clause::Limit(n) => write_limit(out, *n),
        Clause::CarryForward => write!(out, " CARRYFORWARD"),
        Clause::Follows(_) | Clause::Needs(_) | Clause::Prompt(_) | Clause::Opens(_) => Ok(()),
    }
}

fn is_at_clause(clause: &Clause) -> bool
    ensures { result ≡ is_at clause.now }
{
    matches!(clause, Clause::At(..))
}

fn is_until_clause(clause: &Clause) -> bool
    ensures { result ≡ is_until clause.now }
{
    matches!(clause, Clause::Until(..))
}

fn is_deadline_clause(clause: &Clause) -> bool
    ensures { result ≡ is_deadline clause.now }
{
    matches!(clause, Clause::Deadline(..))
}

fn is_own_priority(clause: &Clause) -> bool
    ensures { result ≡ scope.is_own_priority clause.now }
{
    match clause {
        Clause::Priority(n) => *n != 10,
        _ => false,
    }
}

fn is_limit_clause(clause: &Clause) -> bool
    ensures { result ≡ is_limit clause.now }
{
    matches!(clause, Clause::Limit(_))
}

fn is_carry_clause(clause: &Clause) -> bool
    ensures { result ≡ is_carry clause.now }
{
    matches!(clause, Clause::CarryForward)
}

/// Whether the clause is of the kind, and no default.
#[tactic(auto, unfolding(crate::specs::Scopes::is_of))]
fn is_of(kind: Once, clause: &Clause) -> bool
    ensures { result ≡ scope.is_of kind clause.now }
{
    match kind {
        Once::At => is_at_clause(clause),
        Once::Until => is_until_clause(clause),
        Once::Deadline => is_deadline_clause(clause),
        Once::Priority => is_own_priority(clause),
        Once::Limit => is_limit_clause(clause),
        Once::CarryForward => is_carry_clause(clause),
    }
}

#[tactic(auto, unfolding(crate::specs::Steps::kind_text))]
fn write_if(out: &mut Vec<u8>, kind: Once, clause: &Lined<Clause>) -> io::Result<()>
    ensures { OnOk result (out.new.items ≡ out.old.items ++ kind_text kind clause.now) }
{
    if is_of(kind, &clause.item) {
        return write_single(out, &clause.item);
    }
    Ok(())
}

/// Writes the clauses of a kind.
fn write_those(out: &mut Vec<u8>, kind: Once, clauses: &[Lined<Clause>]) -> io::Result<()>
    ensures { OnOk result (out.new.items ≡ out.old.items ++ flat_map (kind_text kind) clauses.now) }
{
    for clause in clauses {
        write_if(out, kind, clause)?;
    }
    Ok(())
}

/// Writes the clauses of an object on a workstation, which belongs to a stream with its workstation and jobs: each kind in
/// its place, those of one kind as one, and no default.
#[tactic(auto, unfolding(crate::specs::Steps::all_text))]
fn write_all<'a>(
    out: &mut Vec<u8>,
    jobs: &Jobs<'a>,
    home: &'a Option<Text>,
    own: &'a Option<Text>,
    clauses: &'a [Lined<Clause>],
) -> io::Result<()>
    ensures { OnOk result (out.new.items ≡ out.old.items ++ all_text jobs.now home.now own.now clauses.now) }
{
    write_those(out, Once::At, clauses)?;
    write_those(out, Once::Until, clauses)?;
    write_those(out, Once::Deadline, clauses)?;
    write_those(out, Once::Priority, clauses)?;
    write_those(out, Once::Limit, clauses)?;
    write_those(out, Once::CarryForward, clauses)?;
    write_joined(out, Joined::Follows, jobs, home, own, clauses)?;
    write_joined(out, Joined::Needs, jobs, home, own, clauses)?;
    write_joined(out, Joined::Prompt, jobs, home, own, clauses)?;
    write_joined(out, Joined::Opens, jobs, home, own, clauses)
}

/// The same, as the text of the normal form.
pub(crate) fn write_clauses<'a>(
    out: &mut Vec<u8>,
    jobs: &Jobs<'a>,
    home: &'a Option<Text>,
    own: &'a Option<Text>,
    clauses: &'a [Lined<Clause>],
) -> io::Result<()>
    ensures { OnOk result (out.new.items ≡ out.old.items
        ++ spec.clauses_text (items (all_unlined (scope.normal_clauses jobs.now home.now own.now (items clauses.now))))) }
{
    write_all(out, jobs, home, own, clauses)?;
    Ok(())
}
