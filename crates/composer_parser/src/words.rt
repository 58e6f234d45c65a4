//! Words that are no names.
ghost use Rattle.std.specs.Prelude.{◌≡◌};
ghost use Rattle.std.specs.List.{list_any};
ghost use Rattle.std.specs.Str.{bytes_eq};
ghost use Rattle.composer_parser.specs.Words.{lower};
ghost use Rattle.composer_parser.specs.Kinds as kinds;

use base_types::is_name;

/// The words of the grammar, and those of the full language that it leaves out.
const RESERVED: [&str; 95] = [
    "$OPTIONS",
    "STARTOFDAY",
    "TIMEZONE",
    "ENCARRYFORWARD",
    "YES",
    "NO",
    "ALL",
    "$CALENDAR",
    "$PROMPT",
    "$RESOURCE",
    "$JOBS",
    "CPUNAME",
    "DESCRIPTION",
    "OS",
    "NODE",
    "TCPADDR",
    "DOMAIN",
    "FOR",
    "MAESTRO",
    "TYPE",
    "MANAGER",
    "FTA",
    "END",
    "AUTOLINK",
    "ON",
    "OFF",
    "BEHINDFIREWALL",
    "RESOLVEDEP",
    "FULLSTATUS",
    "PARENT",
    "ISMASTER",
    "SCRIPTNAME",
    "DOCOMMAND",
    "STREAMLOGON",
    "TASKTYPE",
    "RCCONDSUCC",
    "RECOVERY",
    "STOP",
    "CONTINUE",
    "RERUN",
    "SCHEDULE",
    "FREEDAYS",
    "EXCEPT",
    "RUNCYCLE",
    "VALIDFROM",
    "VALIDTO",
    "FDIGNORE",
    "FDNEXT",
    "FDPREV",
    "MO",
    "TU",
    "WE",
    "TH",
    "FR",
    "SA",
    "SU",
    "EVERYDAY",
    "WEEKDAYS",
    "WORKDAYS",
    "REQUEST",
    "DAYS",
    "AT",
    "UNTIL",
    "ONUNTIL",
    "SUPPR",
    "CONT",
    "CANC",
    "DEADLINE",
    "PRIORITY",
    "HI",
    "GO",
    "LIMIT",
    "CARRYFORWARD",
    "FOLLOWS",
    "NEEDS",
    "PROMPT",
    "OPENS",
    "ACCESS",
    "CONFIRMED",
    "CPUCLASS",
    "EVERY",
    "HOST",
    "INTERACTIVE",
    "KEYJOB",
    "KEYSCHED",
    "MATCHING",
    "PARMS",
    "$PARM",
    "AFTER",
    "ABENDPROMPT",
    "SECUREADDR",
    "SECURITYLEVEL",
    "SERVER",
    "TZ",
    "VARTABLE",
];

/// Whether the word is reserved, in any case.
#[tactic(auto, unfolding(crate::specs::Kinds::is_reserved, crate::specs::Kinds::reserved_words))]
pub(crate) fn is_reserved(word: &str) -> bool
    ensures { result ≡ kinds.is_reserved word.now }
{
    is_one_of(word, &RESERVED)
}

/// Whether the word is one of these, in any case.
pub(crate) fn is_one_of(word: &str, all: &[&str]) -> bool
    ensures { result ≡ list_any (λ k. bytes_eq (lower word.now) (lower k.now)) all.now }
{
    all.iter().any(|k| word.eq_ignore_ascii_case(k))
}

/// Whether the word is a name that is not reserved.
pub(crate) fn is_free_name(word: &str) -> bool
    ensures { result ≡ kinds.is_free_name word.now }
{
    is_name(word) && !is_reserved(word)
}
