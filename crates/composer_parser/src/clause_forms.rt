//! The clauses of streams and of their entries, read from their tokens.
ghost use Rattle.std.specs.Prelude.{◌≡◌, ◌||◌, [], ◌∷◌, true, false, not};
ghost use Rattle.std.specs.List.{list_any};
ghost use Rattle.composer_parser.specs.Reading.{read, is_any, tries};
ghost use Rattle.composer_parser.specs.Clauses as spec;
ghost use Rattle.composer_parser.specs.Tokens.{all_spelled, spelled, Gives};
ghost use Rattle.composer_parser.specs.Clauses.{may_clause};
ghost use Rattle.composer_parser.specs.Parts.{◌or◌};

use crate::clauses::{Clause, Need, Pred, PromptItem};
use crate::definitions::Lined;
use crate::gathering::{Gathers, gather};
use crate::lists::list;
use crate::moments::{is_plus_next, plus, time};
use crate::parts::{is_keyword, is_next, is_number_next, is_word_of, key, number, taken};
use crate::stops::Stop;
use base_types::{Items, NoMemory, OnUntil, Text, Token};
use std::alloc::Global;

#[tactic(auto, unfolding(crate::specs::Clauses::plus_days))]
fn plus_days<'a>(text: &str, rest: &'a [Token]) -> Result<(Option<u32>, &'a [Token]), Stop>
    ensures { Gives (λ x. x.0) (λ x. x.1.now) text.now result (read spec.plus_days (all_spelled text.now rest.now)) }
{
    if is_plus_next(text, rest) {
        let (n, rest) = plus(text, rest)?;
        let (_, rest) = key(text, rest, "DAYS")?;
        return Ok((Some(n), rest));
    }
    Ok((None, rest))
}

#[tactic(auto, unfolding(crate::specs::Clauses::until_word))]
fn until_word<'a>(text: &str, rest: &'a [Token]) -> Result<(OnUntil, &'a [Token]), Stop>
    ensures { Gives (λ x. x.0) (λ x. x.1.now) text.now result (read spec.until_word (all_spelled text.now rest.now)) }
{
    if let Some((_, rest)) = taken(text, rest, "SUPPR") {
        return Ok((OnUntil::Suppr, rest));
    }
    if let Some((_, rest)) = taken(text, rest, "CONT") {
        return Ok((OnUntil::Cont, rest));
    }
    let (_, rest) = key(text, rest, "CANC")?;
    Ok((OnUntil::Canc, rest))
}

#[tactic(auto, unfolding(crate::specs::Clauses::on_until))]
fn on_until<'a>(text: &str, rest: &'a [Token]) -> Result<(OnUntil, &'a [Token]), Stop>
    ensures { Gives (λ x. x.0) (λ x. x.1.now) text.now result (read spec.on_until (all_spelled text.now rest.now)) }
{
    if let Some((_, rest)) = taken(text, rest, "ONUNTIL") {
        return until_word(text, rest);
    }
    Ok((OnUntil::Suppr, rest))
}

#[tactic(auto, unfolding(crate::specs::Clauses::priority))]
fn priority<'a>(text: &str, rest: &'a [Token]) -> Result<(u32, &'a [Token]), Stop>
    ensures { Gives (λ x. x.0) (λ x. x.1.now) text.now result (read spec.priority (all_spelled text.now rest.now)) }
{
    if is_number_next(text, rest) {
        return number(text, rest);
    }
    if let Some((_, rest)) = taken(text, rest, "HI") {
        return Ok((100, rest));
    }
    let (_, rest) = key(text, rest, "GO")?;
    Ok((101, rest))
}

#[tactic(auto, unfolding(crate::specs::Clauses::at_clause))]
fn at_clause<'a>(text: &str, rest: &'a [Token]) -> Result<(Lined<Clause>, &'a [Token]), Stop>
    ensures { Gives (λ x. x.0) (λ x. x.1.now) text.now result (read spec.at_clause (all_spelled text.now rest.now)) }
{
    let (line, rest) = key(text, rest, "AT")?;
    let (time, rest) = time(text, rest)?;
    let (days, rest) = plus_days(text, rest)?;
    let item = Clause::At(time, days);
    Ok((Lined { line, item }, rest))
}

#[tactic(auto, unfolding(crate::specs::Clauses::until_clause))]
fn until_clause<'a>(text: &str, rest: &'a [Token]) -> Result<(Lined<Clause>, &'a [Token]), Stop>
    ensures { Gives (λ x. x.0) (λ x. x.1.now) text.now result (read spec.until_clause (all_spelled text.now rest.now)) }
{
    let (line, rest) = key(text, rest, "UNTIL")?;
    let (time, rest) = time(text, rest)?;
    let (days, rest) = plus_days(text, rest)?;
    let (action, rest) = on_until(text, rest)?;
    let item = Clause::Until(time, days, action);
    Ok((Lined { line, item }, rest))
}

#[tactic(auto, unfolding(crate::specs::Clauses::deadline_clause))]
fn deadline_clause<'a>(text: &str, rest: &'a [Token]) -> Result<(Lined<Clause>, &'a [Token]), Stop>
    ensures { Gives (λ x. x.0) (λ x. x.1.now) text.now result (read spec.deadline_clause (all_spelled text.now rest.now)) }
{
    let (line, rest) = key(text, rest, "DEADLINE")?;
    let (time, rest) = time(text, rest)?;
    let (days, rest) = plus_days(text, rest)?;
    let item = Clause::Deadline(time, days);
    Ok((Lined { line, item }, rest))
}

#[tactic(auto, unfolding(crate::specs::Clauses::priority_clause))]
fn priority_clause<'a>(text: &str, rest: &'a [Token]) -> Result<(Lined<Clause>, &'a [Token]), Stop>
    ensures { Gives (λ x. x.0) (λ x. x.1.now) text.now result (read spec.priority_clause (all_spelled text.now rest.now)) }
{
    let (line, rest) = key(text, rest, "PRIORITY")?;
    let (n, rest) = priority(text, rest)?;
    let item = Clause::Priority(n);
    Ok((Lined { line, item }, rest))
}

#[tactic(auto, unfolding(crate::specs::Clauses::limit_clause))]
fn limit_clause<'a>(text: &str, rest: &'a [Token]) -> Result<(Lined<Clause>, &'a [Token]), Stop>
    ensures { Gives (λ x. x.0) (λ x. x.1.now) text.now result (read spec.limit_clause (all_spelled text.now rest.now)) }
{
    let (line, rest) = key(text, rest, "LIMIT")?;
    let (n, rest) = number(text, rest)?;
    let item = Clause::Limit(n);
    Ok((Lined { line, item }, rest))
}

#[tactic(auto, unfolding(crate::specs::Clauses::carry_clause))]
fn carry_clause<'a>(text: &str, rest: &'a [Token]) -> Result<(Lined<Clause>, &'a [Token]), Stop>
    ensures { Gives (λ x. x.0) (λ x. x.1.now) text.now result (read spec.carry_clause (all_spelled text.now rest.now)) }
{
    let (line, rest) = key(text, rest, "CARRYFORWARD")?;
    let item = Clause::CarryForward;
    Ok((Lined { line, item }, rest))
}

#[tactic(auto, using(crate::proofs::Sound::next_pred_decided), unfolding(crate::specs::Clauses::follows_clause, crate::specs::Clauses::preds, crate::specs::Clauses::next_pred))]
fn follows_clause<'a>(
    alloc: Global,
    text: &str,
    rest: &'a [Token],
) -> Result<(Lined<Clause>, &'a [Token]), Stop>
    ensures { Gives (λ x. x.0) (λ x. x.1.now) text.now result (read spec.follows_clause (all_spelled text.now rest.now)) }
{
    let (line, rest) = key(text, rest, "FOLLOWS")?;
    let (all, rest) = list::<Pred>(alloc, text, rest)?;
    let item = Clause::Follows(all);
    Ok((Lined { line, item }, rest))
}

#[tactic(auto, using(crate::proofs::Sound::next_need_decided), unfolding(crate::specs::Clauses::needs_clause, crate::specs::Clauses::needs, crate::specs::Clauses::next_need))]
fn needs_clause<'a>(
    alloc: Global,
    text: &str,
    rest: &'a [Token],
) -> Result<(Lined<Clause>, &'a [Token]), Stop>
    ensures { Gives (λ x. x.0) (λ x. x.1.now) text.now result (read spec.needs_clause (all_spelled text.now rest.now)) }
{
    let (line, rest) = key(text, rest, "NEEDS")?;
    let (all, rest) = list::<Need>(alloc, text, rest)?;
    let item = Clause::Needs(all);
    Ok((Lined { line, item }, rest))
}

#[tactic(auto, using(crate::proofs::Sound::next_prompt_decided), unfolding(crate::specs::Clauses::prompt_clause, crate::specs::Clauses::prompts, crate::specs::Clauses::next_prompt))]
fn prompt_clause<'a>(
    alloc: Global,
    text: &str,
    rest: &'a [Token],
) -> Result<(Lined<Clause>, &'a [Token]), Stop>
    ensures { Gives (λ x. x.0) (λ x. x.1.now) text.now result (read spec.prompt_clause (all_spelled text.now rest.now)) }
{
    let (line, rest) = key(text, rest, "PROMPT")?;
    let (all, rest) = list::<PromptItem>(alloc, text, rest)?;
    let item = Clause::Prompt(all);
    Ok((Lined { line, item }, rest))
}

#[tactic(auto, using(crate::proofs::Sound::next_file_decided), unfolding(crate::specs::Clauses::opens_clause, crate::specs::Clauses::files, crate::specs::Clauses::next_file))]
fn opens_clause<'a>(
    alloc: Global,
    text: &str,
    rest: &'a [Token],
) -> Result<(Lined<Clause>, &'a [Token]), Stop>
    ensures { Gives (λ x. x.0) (λ x. x.1.now) text.now result (read spec.opens_clause (all_spelled text.now rest.now)) }
{
    let (line, rest) = key(text, rest, "OPENS")?;
    let (all, rest) = list::<Text>(alloc, text, rest)?;
    let item = Clause::Opens(all);
    Ok((Lined { line, item }, rest))
}

/// A clause that lists something.
#[tactic(auto, unfolding(crate::specs::Clauses::follows_clause, crate::specs::Clauses::needs_clause, crate::specs::Clauses::prompt_clause))]
fn list_clause<'a>(
    alloc: Global,
    text: &str,
    rest: &'a [Token],
) -> Result<(Lined<Clause>, &'a [Token]), Stop>
    ensures { Gives (λ x. x.0) (λ x. x.1.now) text.now result
        (read (spec.follows_clause or spec.needs_clause or spec.prompt_clause or spec.opens_clause) (all_spelled text.now rest.now)) }
{
    if is_next(text, rest, "FOLLOWS") {
        return follows_clause(alloc, text, rest);
    }
    if is_next(text, rest, "NEEDS") {
        return needs_clause(alloc, text, rest);
    }
    if is_next(text, rest, "PROMPT") {
        return prompt_clause(alloc, text, rest);
    }
    opens_clause(alloc, text, rest)
}

/// The words with which clauses begin.
const CLAUSE_WORDS: [&str; 10] = [
    "AT",
    "UNTIL",
    "DEADLINE",
    "PRIORITY",
    "LIMIT",
    "CARRYFORWARD",
    "FOLLOWS",
    "NEEDS",
    "PROMPT",
    "OPENS",
];

/// Whether the token begins a clause.
#[tactic(auto, unfolding(crate::specs::Clauses::clause, crate::specs::Clauses::at_clause, crate::specs::Clauses::until_clause, crate::specs::Clauses::deadline_clause, crate::specs::Clauses::priority_clause, crate::specs::Clauses::limit_clause, crate::specs::Clauses::carry_clause, crate::specs::Clauses::follows_clause, crate::specs::Clauses::needs_clause, crate::specs::Clauses::prompt_clause, crate::specs::Clauses::opens_clause))]
fn begins_clause(text: &str, token: &Token) -> bool
    ensures { result ≡ is_any (tries spec.clause) (spelled text.now token.now) }
{
    is_word_of(text, token, &CLAUSE_WORDS)
}

/// Whether the token begins what stands once, and this clause is that.
fn is_again(clause: &Lined<Clause>, text: &str, token: &Token) -> bool
    ensures { result ≡ not (may_clause true (clause.now ∷ []) (spelled text.now token.now)) }
{
    match &clause.item {
        Clause::At(..) => is_keyword(text, token, "AT"),
        Clause::Until(..) => is_keyword(text, token, "UNTIL"),
        Clause::Deadline(..) => is_keyword(text, token, "DEADLINE"),
        Clause::Priority(_) => is_keyword(text, token, "PRIORITY"),
        Clause::Limit(_) => is_keyword(text, token, "LIMIT"),
        Clause::CarryForward => is_keyword(text, token, "CARRYFORWARD"),
        Clause::Follows(_) | Clause::Needs(_) | Clause::Prompt(_) | Clause::Opens(_) => false,
    }
}

/// Whether one of the clauses is what the token begins, and stands once.
fn stands(all: &[Lined<Clause>], text: &str, token: &Token) -> bool
    ensures { result ≡ list_any (λ c. not (may_clause true (c ∷ []) (spelled text.now token.now))) all.now }
{
    all.iter().any(|clause| is_again(clause, text, token))
}

/// Whether a stream, or an entry, may have what the token begins.
fn is_had(stream: bool, text: &str, token: &Token) -> bool
    ensures { result ≡ (stream || may_clause false [] (spelled text.now token.now)) }
{
    if stream {
        return true;
    }
    !is_keyword(text, token, "LIMIT") && !is_keyword(text, token, "CARRYFORWARD")
}

/// The words with which those clauses begin that stand at most once.
const SINGLE_WORDS: [&str; 6] = [
    "AT",
    "UNTIL",
    "DEADLINE",
    "PRIORITY",
    "LIMIT",
    "CARRYFORWARD",
];

/// Whether the token begins what stands once.
fn is_single(text: &str, token: &Token) -> bool
    ensures { result ≡ spec.is_single (spelled text.now token.now) }
{
    is_word_of(text, token, &SINGLE_WORDS)
}

/// Whether what stands once does not stand already. The clauses are looked at only where the token begins what stands once,
/// which it does a few times in an object.
fn may_stand(stream: bool, all: &[Lined<Clause>], text: &str, token: &Token) -> bool
    ensures { result ≡ may_clause stream all.now (spelled text.now token.now) }
{
    if !is_had(stream, text, token) {
        return false;
    }
    if !is_single(text, token) {
        return true;
    }
    !stands(all, text, token)
}

/// The clauses of a stream, or of an entry, as far as they were read.
#[derive(Drop)]
struct ClauseList {
    stream: bool,
    all: Items<Lined<Clause>>,
}

impl Gathers for ClauseList {
    ghost use Rattle.composer_parser.specs.Clauses.{clause, may_clause};
    ghost use Rattle.composer_parser.specs.Parts.{put};

    type Part = Lined<Clause>;

    ghost part_grammar = { clause };

    ghost next_state = { λ s c. record s { all = put s.all c } };

    ghost may_begin = { λ s t. may_clause s.stream s.all t };

    /// What stands once must not stand before.
    fn goes_on(&self, text: &str, rest: &[Token]) -> bool {
        match rest {
            [token, ..] => {
                begins_clause(text, token)
                    && may_stand(self.stream, self.all.as_slice(), text, token)
            }
            [] => false,
        }
    }

    #[tactic(auto, unfolding(crate::specs::Clauses::clause, crate::specs::Clauses::at_clause, crate::specs::Clauses::until_clause, crate::specs::Clauses::deadline_clause, crate::specs::Clauses::priority_clause, crate::specs::Clauses::limit_clause, crate::specs::Clauses::carry_clause))]
    fn read_part<'a>(
        alloc: Global,
        text: &str,
        rest: &'a [Token],
    ) -> Result<(Lined<Clause>, &'a [Token]), Stop> {
        if is_next(text, rest, "AT") {
            return at_clause(text, rest);
        }
        if is_next(text, rest, "UNTIL") {
            return until_clause(text, rest);
        }
        if is_next(text, rest, "DEADLINE") {
            return deadline_clause(text, rest);
        }
        if is_next(text, rest, "PRIORITY") {
            return priority_clause(text, rest);
        }
        if is_next(text, rest, "LIMIT") {
            return limit_clause(text, rest);
        }
        if is_next(text, rest, "CARRYFORWARD") {
            return carry_clause(text, rest);
        }
        list_clause(alloc, text, rest)
    }

    fn take(&mut self, clause: Lined<Clause>) -> Result<(), NoMemory> {
        self.all.push(clause)
    }
}

/// The clauses of a stream, or of an entry.
#[tactic(auto, using(crate::proofs::Sound::clause_decided, crate::proofs::Sound::clause_some), unfolding(crate::specs::Clauses::clauses))]
pub(crate) fn clauses<'a>(
    alloc: Global,
    text: &str,
    rest: &'a [Token],
    stream: bool,
) -> Result<(Items<Lined<Clause>>, &'a [Token]), Stop>
    ensures { Gives (λ x. x.0) (λ x. x.1.now) text.now result (read (spec.clauses stream) (all_spelled text.now rest.now)) }
{
    let all = Items::new(alloc);
    let (found, rest) = gather(alloc, text, rest, ClauseList { stream, all })?;
    Ok((found.all, rest))
}
