//! Conditions in their canonical form.
ghost use Rattle.std.specs.Prelude.{◌≡◌, IfOk};
ghost use Rattle.plan_listing.specs.Conditions as spec;

use base_types::{Cond, NoMemory, Text};
use rc_conditions::print_cond;
use std::alloc::Global;

/// The canonical text of a condition. Another list that is no postfix expression or has more than 64 operations has the
/// empty text.
pub(crate) fn cond_text(alloc: Global, cond: &Cond) -> Result<Text, NoMemory>
    ensures { IfOk result (λ text. text ≡ spec.cond_text cond.now) }
{
    print_cond(alloc, cond)
}
