//! The master domain, and managers that are not of their domain.
ghost use Rattle.std.specs.Prelude.{◌≡◌};
ghost use Rattle.definition_faults.specs.Orders.{earliest};
ghost use Rattle.definition_faults.specs.Masters as spec;

use crate::kinds::{Fault, Kind, earlier};
use composer_parser::{Defs, DomainDef, Lined};
use definition_names::Names;

/// The fault where not exactly one domain has no parent: at the first of several, and at the last line where there is
/// none.
#[tactic(auto, unfolding(crate::specs::Masters::master_faults))]
pub(crate) fn in_masters(defs: &Defs) -> Option<Fault>
    ensures { result ≡ earliest (spec.master_faults defs.now) }
{
    let domains = defs.domains.as_slice();
    let mut found: Option<u32> = None;
    for domain in domains {
        if domain.item.parent.is_none() {
            if let Some(line) = found {
                return Some(tree_at(line));
            }
            found = Some(domain.line);
        }
    }
    match found {
        Some(_) => None,
        None => Some(tree_at(defs.last_line)),
    }
}

fn tree_at(line: u32) -> Fault
    ensures { result ≡ spec.tree_at line }
{
    Fault {
        line,
        kind: Kind::Tree,
    }
}

/// The first of the managers that are not of their domain, at the lower line of the two.
#[tactic(auto, unfolding(crate::specs::Masters::manager_faults))]
pub(crate) fn in_managers<'a>(names: &Names<'a>) -> Option<Fault>
    ensures { result ≡ earliest (spec.manager_faults names.now) }
{
    let domains = names.defs().domains.as_slice();
    let mut first = None;
    for domain in domains {
        first = earlier(first, stray_fault(names, domain));
    }
    first
}

fn stray_fault<'a>(names: &Names<'a>, domain: &'a Lined<DomainDef>) -> Option<Fault>
    ensures { result ≡ spec.stray_fault names.now domain.now }
{
    match stray_line(names, domain) {
        Some(line) => Some(tree_at(line)),
        None => None,
    }
}

/// The lower line of a domain and of its manager, where that is of another domain.
fn stray_line<'a>(names: &Names<'a>, domain: &'a Lined<DomainDef>) -> Option<u32>
    ensures { result ≡ spec.stray_line names.now domain.now }
{
    let place = names.cpu(&domain.item.manager)?;
    let cpu = names.defs().cpus.get(place)?;
    if cpu.item.domain == domain.item.name {
        return None;
    }
    Some(domain.line.min(cpu.line))
}
