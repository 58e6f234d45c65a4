//! What holds of all definitions, and of the parts of their texts.
ghost use Rattle.std.specs.Prelude.{◌≡◌, ◌≤◌, ◌<◌, ◌^◌, ◌∷◌, ℕ, List, Some, length, true};
ghost use Rattle.std.specs.Fmt.{decimal};
ghost use Rattle.syntax.specs.Numbers.{is_number};
ghost use Rattle.syntax.specs.Quotes.{quoted_of, quoted_text};
ghost use Rattle.calendars.specs.Dates.{IsDay};
ghost use Rattle.composer_parser.specs.declared.definitions.Defs.{Defs as Definitions};
ghost use Rattle.composer_parser.specs.Kinds.{is_time, is_date, is_plus};
ghost use Rattle.composer_parser.specs.Parts.{capped, minutes, day_of};
ghost use Rattle.composer_print.specs.Days.{date_text, time_text};
ghost use Rattle.composer_print.specs.Normal.{normal};

/// The normal form of a normal form is itself.
pub fn normal_form_is_normal()
    ensures { (d : Definitions) → normal (normal d) ≡ normal d }
{}

/// A number of 32 bits is a number of the grammar, alone and behind a `+`, and is read as itself.
pub fn numbers_are_read_back()
    ensures number { (n : ℕ) → n < 2 ^ 32 → is_number (decimal n) ≡ true }
    ensures plus { (n : ℕ) → n < 2 ^ 32 → is_plus (43 ∷ decimal n) ≡ true }
    ensures value { (n : ℕ) → n < 2 ^ 32 → capped (decimal n) ≡ n }
{}

/// A time is a time of the grammar, and is read as itself.
pub fn times_are_read_back()
    ensures time { (t : ℕ) → t < 1440 → is_time (time_text t) ≡ true }
    ensures value { (t : ℕ) → t < 1440 → minutes (time_text t) ≡ t }
{}

/// A day from 01/01/1970 to 12/31/9999 is a date of the grammar, and is read as itself.
pub fn dates_are_read_back()
    ensures date { (day : ℕ) → IsDay day → is_date (date_text day) ≡ true }
    ensures value { (day : ℕ) → IsDay day → day_of (date_text day) ≡ day }
{}

/// A text of at most 4,096 bytes in quotes stands for itself.
pub fn texts_are_read_back()
    ensures { (text : List ℕ) → length text ≤ 4096 → quoted_of (quoted_text text) ≡ Some text }
{}
