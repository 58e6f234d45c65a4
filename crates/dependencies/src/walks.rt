//! The dependencies of an object that are not waived, one by one.
ghost use Rattle.std.specs.Prelude.{◌≡◌};
ghost use Rattle.std.specs.Iterator.{YieldsFirstBy, item_count};
ghost use Rattle.model.specs.History.{view_of};
ghost use Rattle.model.specs.Dependencies as spec;
ghost use Rattle.dependencies.specs.Left.{deps_left, numbered};

use base_types::{Dep, Obj};
use owner_fold::Owners;

/// The dependencies of an object that are not waived, each with its number from 1, in order.
#[derive(Drop)]
pub struct UnwaivedDeps<'a> {
    pub(crate) owners: &'a Owners,
    pub(crate) obj: Obj,
    /// How many dependencies lie behind.
    pub(crate) passed: u16,
}

impl<'a> Iterator for UnwaivedDeps<'a> {
    type Item = (u16, &'a Dep);

    ghost next_gives = { YieldsFirstBy (λ p. numbered p.0 p.1.now) deps_left };

    ghost remaining = { item_count deps_left };

    fn next(&mut self) -> Option<(u16, &'a Dep)> {
        let owners = self.owners;
        for passed in self.passed..u16::MAX {
            let number = passed + 1;
            match owners.dep(self.obj, number) {
                None => return None,
                Some(dep) => {
                    if !owners.is_waived(self.obj, number) {
                        self.passed = number;
                        return Some((number, dep));
                    }
                }
            }
        }
        None
    }
}

/// The dependencies of an object that are not waived.
#[tactic(auto, unfolding(model::specs::Dependencies::unwaived_deps))]
pub fn unwaived_deps<'a>(o: &'a Owners, obj: &Obj) -> UnwaivedDeps<'a>
    ensures { deps_left result ≡ spec.unwaived_deps (view_of o.now) obj.now }
{
    UnwaivedDeps {
        owners: o,
        obj: *obj,
        passed: 0,
    }
}
