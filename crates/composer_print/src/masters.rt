//! The master workstation.
ghost use Rattle.std.specs.Prelude.{◌≡◌, ◌∷◌, [], IfOk, filter_map, option_map};
ghost use Rattle.std.specs.Option.{option_map_or};
ghost use Rattle.composer_print.specs.Normal as spec;
ghost use Rattle.composer_print.specs.Normal.{manager_of};

use base_types::{Copied, NoMemory, Text};
use composer_parser::{DomainDef, Lined};

/// The manager of the first domain without a parent, and the domains behind it.
fn next_master(domains: &[Lined<DomainDef>]) -> Option<(&Text, &[Lined<DomainDef>])>
    ensures { option_map_or (λ x. x.0.now ∷ filter_map manager_of x.1.now) result [] ≡ filter_map manager_of domains.now }
{
    let mut left = domains;
    while let [first, rest @ ..] = left {
        if first.item.parent.is_none() {
            return Some((&first.item.manager, rest));
        }
        left = rest;
    }
    None
}

/// The manager of the one domain without a parent.
#[tactic(auto, unfolding(crate::specs::Normal::master_of))]
fn only_master(domains: &[Lined<DomainDef>]) -> Option<&Text>
    ensures { option_map (λ m. m.now) result ≡ spec.master_of domains.now }
{
    match next_master(domains) {
        None => None,
        Some((first, rest)) => match next_master(rest) {
            None => Some(first),
            Some(_) => None,
        },
    }
}

/// The name of the master workstation, where the domains determine it.
pub(crate) fn master(domains: &[Lined<DomainDef>]) -> Result<Option<Text>, NoMemory>
    ensures { IfOk result (λ m. m ≡ spec.master_of domains.now) }
{
    match only_master(domains) {
        None => Ok(None),
        Some(name) => Ok(Some(name.copy()?)),
    }
}
