// A keeper of bodies.
ghost use Rattle.std.specs.Prelude.{◌≡◌, ◌+◌, ◌<◌, ◌≤◌, ◌⊎◌, ◌↔◌, ℕ, List, Bool, true, false, length, IfOk, IfErr, OnOk, OnErr, IfSome, option_map, slice_get, Some};
ghost use Rattle.std.specs.Result.{IsErrOf};
ghost use Rattle.std.specs.declared.option.Option.{Option};
ghost use Rattle.outside.specs.Causes.{Rose};
ghost use Rattle.outside.specs.Kept.{Bodies, with_body, KeptOrWith, IsKept, size_of};
ghost use Rattle.outside.specs.Records.{longest_file};
ghost use Rattle.outside.specs.declared.keepers.KeepFault.TheVariants.{Disk as OfDisk, Full, NotThere};

use crate::Framed;
use base_types::Bytes;

/// Why a body was not kept or read.
#[derive(Clone, Copy, PartialEq)]
pub enum KeepFault {
    /// The disk failed, in this call or before.
    Disk,
    /// There is no room for the body.
    Full,
    /// No body has this number.
    NotThere,
    NoMemory,
}

/// A list of bodies that outlives a stop.
pub trait Keeper {
    /// The bodies that it keeps, in order, where it tells them.
    ghost kept: { Self → Option Bodies };

    /// How many they are.
    ghost number: { Self → ℕ };

    /// How many bytes it takes for them, up to 2,147,483,648.
    ghost size: { Self → ℕ };

    /// Whether it has answered that its disk failed. From then on it keeps nothing more.
    ghost spent: { Self → Bool };

    /// The lists that it tells a stop at this moment may leave. A keeper that doesn't know tells none.
    ghost may_leave: { Self → Bodies → Type 0 };

    /// The moment, a number that does not fall.
    ghost moment: { Self → ℕ };

    /// The lists that it tells a stop at some moment from that one on might have left.
    ghost left_since: { Self → ℕ → Bodies → Type 0 };

    /// Whether it tells that all that a stop left since a moment is of a workstation and can be opened again: the keeper, the
    /// workstation, and the moment.
    ghost opens_since: { Self → ℕ → ℕ → Type 0 };

    /// The count of its disk's faults.
    ghost faults: { Self → ℕ };

    /// Keeps one more body, and takes no memory for it. Full exactly where the size would pass 2,147,483,648.
    fn append(&mut self, body: &Framed) -> Result<(), KeepFault>
        ensures kept { OnOk result (kept self.new ≡ option_map (with_body body.now) (kept self.old)) }
        ensures count { OnOk result (number self.new ≡ number self.old + 1) }
        ensures size { OnOk result (size self.new ≡ size self.old + length body.now + 5) }
        ensures same_kept { OnErr result (kept self.new ≡ kept self.old) }
        ensures same_count { OnErr result (number self.new ≡ number self.old) }
        ensures same_size { OnErr result (size self.new ≡ size self.old) }

        // Why it is refused.
        ensures full { spent self.old ≡ false → (IsErrOf result Full ↔ (longest_file < size self.old + length body.now + 5)) }
        ensures cause { spent self.old ≡ false → IsErrOf result OfDisk → Rose (faults self.old) (faults self.new) }
        ensures later { faults self.old ≤ faults self.new }
        ensures no_other { IfErr result (λ fault. (fault ≡ OfDisk) ⊎ (fault ≡ Full)) }
        ensures spends { IsErrOf result OfDisk → spent self.new ≡ true }
        ensures refuses { spent self.old ≡ true → IsErrOf result OfDisk }
        ensures not_spent { spent self.old ≡ false → (IsErrOf result OfDisk → ⊥) → spent self.new ≡ false }
        ensures stays_spent { spent self.old ≡ true → spent self.new ≡ true }

        // What a stop leaves: at any moment of the call what was kept, or that and the body.
        ensures time { moment self.old ≤ moment self.new }
        ensures any_moment { (t : ℕ) → (left : Bodies) → t ≤ moment self.old → left_since self.new t left →
            left_since self.old t left ⊎ KeptOrWith (kept self.old) body.now left }
        ensures failed { spent self.old ≡ false → IsErrOf result OfDisk →
            (left : Bodies) → may_leave self.new left → KeptOrWith (kept self.old) body.now left }
        ensures rest { spent self.new ≡ false → (left : Bodies) → may_leave self.new left → IsKept (kept self.new) left }
        ensures spent_now { spent self.old ≡ true → (left : Bodies) → (may_leave self.new left ↔ may_leave self.old left) }
        ensures spent_since { spent self.old ≡ true → (t : ℕ) → (left : Bodies) → t ≤ moment self.old →
            (left_since self.new t left ↔ left_since self.old t left) }
        ensures opens { (owner t : ℕ) → t ≤ moment self.old → opens_since self.old owner t → opens_since self.new owner t };

    /// How many bodies it keeps. They alone say how many bytes it takes, and what a stop leaves.
    fn count(&self) -> u32
        ensures count { result ≡ number self.now }
        ensures kept { IfSome (kept self.now) (λ bodies. length bodies ≡ number self.now) }
        ensures size { spent self.now ≡ false → IfSome (kept self.now) (λ bodies. size self.now ≡ size_of bodies) }
        ensures rest { spent self.now ≡ false → (left : Bodies) → may_leave self.now left → IsKept (kept self.now) left };

    /// The body of this number, counted from 0. NotThere exactly where there are no more than so many.
    fn read(&mut self, i: u32) -> Result<Bytes, KeepFault>
        ensures body { IfOk result (λ body. IfSome (kept self.old) (λ bodies. slice_get bodies i ≡ Some body)) }
        ensures kept { kept self.new ≡ kept self.old }
        ensures count { number self.new ≡ number self.old }
        ensures size { size self.new ≡ size self.old }
        ensures there { spent self.old ≡ false → (IsErrOf result NotThere ↔ (number self.old ≤ i)) }
        ensures cause { spent self.old ≡ false → IsErrOf result OfDisk → Rose (faults self.old) (faults self.new) }
        ensures later { faults self.old ≤ faults self.new }
        ensures no_other { IsErrOf result Full → ⊥ }
        ensures spends { IsErrOf result OfDisk → spent self.new ≡ true }
        ensures refuses { spent self.old ≡ true → IsErrOf result OfDisk }
        ensures not_spent { spent self.old ≡ false → (IsErrOf result OfDisk → ⊥) → spent self.new ≡ false }
        ensures stays_spent { spent self.old ≡ true → spent self.new ≡ true }

        // It changes nothing of what a stop leaves.
        ensures time { moment self.old ≤ moment self.new }
        ensures now { (left : Bodies) → (may_leave self.new left ↔ may_leave self.old left) }
        ensures since { (t : ℕ) → (left : Bodies) → t ≤ moment self.old → (left_since self.new t left ↔ left_since self.old t left) }
        ensures opens { (owner t : ℕ) → t ≤ moment self.old → opens_since self.old owner t → opens_since self.new owner t };

    /// This moment is one of those since an earlier one.
    ghost counts_now: { (keeper : Self) (t : ℕ) (left : Bodies) → t ≤ moment keeper → may_leave keeper left → left_since keeper t left };

    /// Since this moment there is no other.
    ghost only_now: { (keeper : Self) (left : Bodies) → left_since keeper (moment keeper) left → may_leave keeper left };
}
