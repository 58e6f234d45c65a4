//! The ranges of a rule's numbers.
ghost use Rattle.std.specs.Prelude.{◌≡◌, ◌==◌};
ghost use Rattle.std.specs.List.{list_all, slice_split};
ghost use Rattle.run_rules.specs.Ranges as spec;

use crate::parts::{Frequency, frequency_of, interval_of, value_of};
use syntax::number_i32;

/// Whether the rule's interval is from 1 to 999, and 1 where no first day is given, and each day of a month from 1 to 31
/// or from -31 to -1.
#[tactic(auto, unfolding(crate::specs::Ranges::is_in_range))]
pub fn is_in_range(rule: &str, has_first: bool) -> bool
    ensures { result ≡ spec.is_in_range rule.now has_first }
{
    has_interval_in_range(rule, has_first) && has_month_days_in_range(rule)
}

fn has_interval_in_range(rule: &str, has_first: bool) -> bool
    ensures { result ≡ spec.has_interval_in_range rule.now has_first }
{
    match interval_of(rule) {
        Some(n) => 1 <= n && n <= 999 && (n == 1 || has_first),
        None => false,
    }
}

fn has_month_days_in_range(rule: &str) -> bool
    ensures { result ≡ spec.has_month_days_in_range rule.now }
{
    match frequency_of(rule) {
        Frequency::Daily | Frequency::Weekly => true,
        Frequency::Monthly => are_in_range(value_of(rule, "BYMONTHDAY")),
    }
}

fn are_in_range(list: &str) -> bool
    ensures { result ≡ list_all spec.is_month_day_in_range (slice_split (λ b. b == 44) list.now) }
{
    list.split(',').all(|word| is_month_day_in_range(word))
}

fn is_month_day_in_range(word: &str) -> bool
    ensures { result ≡ spec.is_month_day_in_range word.now }
{
    match number_i32(word) {
        Some(k) => 1 <= k.unsigned_abs() && k.unsigned_abs() <= 31,
        None => false,
    }
}
