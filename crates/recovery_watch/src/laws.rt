//! What holds of every advice.
ghost use Rattle.std.specs.Prelude.{◌≡◌, ℕ, Some};
ghost use Rattle.model.specs.Types.{Events, Rerun};
ghost use Rattle.model.specs.History.{View};
ghost use Rattle.model.specs.Facts.{reruns};
ghost use Rattle.recovery_watch.specs.Advice.{advice};

/// A job that is advised to be rerun was not rerun yet, so a job is rerun by advice at most once.
pub fn reruns_are_advised_once()
    ensures { (V : View) (w j : ℕ) → advice V w ≡ Some (Rerun j) → reruns j (V (Events w)) ≡ 0 }
{}
