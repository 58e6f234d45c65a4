//! What holds of every probe.
ghost use Rattle.std.specs.Prelude.{◌≡◌, ◌↔◌, ℕ, [], All, Contains, IsSome, List, None, Option, Some, true, false};
ghost use Rattle.model.specs.Types.{Events, Fulfil, Input, Job, Net, Obj, Outside};
ghost use Rattle.model.specs.History.{View};
ghost use Rattle.model.specs.Facts.{is_fulfilled};
ghost use Rattle.model.specs.Dependencies.{dep, is_waived};
ghost use Rattle.model.specs.Readiness.{is_ready};
ghost use Rattle.model.specs.StepFaults.{lacks_dep};
ghost use Rattle.file_watch.specs.Circle.{DepPlace, comes_sooner};
ghost use Rattle.file_watch.specs.Probes.{due_probes, next_probe, path_at};

/// The next probe is for a due dependency, and none that is due comes sooner in the circle. There is none only where
/// nothing is due.
pub fn next_is_soonest()
    ensures due { (V : View) (w : ℕ) (last : Option DepPlace) (p : DepPlace) → next_probe V w last ≡ Some p →
        Contains (due_probes V w) p }
    ensures soonest { (V : View) (w : ℕ) (last : Option DepPlace) (p : DepPlace) → next_probe V w last ≡ Some p →
        All (λ q. comes_sooner last q p ≡ false) (due_probes V w) }
    ensures none { (V : View) (w : ℕ) (last : Option DepPlace) → (next_probe V w last ≡ None) ↔ (due_probes V w ≡ []) }
{}

/// Where a file is looked for, there is a path to look at, and that the file is there can be told: no step of the node
/// refuses it.
pub fn probes_may_be_told()
    ensures path { (V : View) (w : ℕ) (last : Option DepPlace) (o : Obj) (i : ℕ) → next_probe V w last ≡ Some (o, i) →
        IsSome (path_at V o i) }
    ensures told { (V : View) (w : ℕ) (last : Option DepPlace) (o : Obj) (i : ℕ) → next_probe V w last ≡ Some (o, i) →
        lacks_dep w V (Input.Local (Fulfil o i)) ≡ false }
{}

/// No job is ready, and so none is launched, before each file was told for which it waits by a dependency that is not
/// waived.
pub fn files_come_before_launches()
    ensures { (net : Net) (V : View) (w j i : ℕ) (path : List ℕ) → is_ready net V w j ≡ true →
        dep V (Job j) i ≡ Some (Outside path) → is_waived V (Job j) i ≡ false →
        is_fulfilled (Job j) i (V (Events w)) ≡ true }
{}
