//! The laws of what is accepted and what is refused.
ghost use Rattle.std.specs.Prelude.{◌≡◌, ℕ, List};
ghost use Rattle.model.specs.Types.{Entry, Net};
ghost use Rattle.node_restart.specs.Restarting.{IsRefused, Restarts};

/// Of one file a node is made with one list of entries, or it is refused at one place, and never both.
pub fn files_decide_restarts()
    ensures one_list { (net : Net) (me : ℕ) (file : List ℕ) (a b : List Entry) →
        Restarts net me a file → Restarts net me b file → a ≡ b }
    ensures one_place { (net : Net) (me : ℕ) (file : List ℕ) (a b : ℕ) →
        IsRefused net me a file → IsRefused net me b file → a ≡ b }
    ensures not_both { (net : Net) (me : ℕ) (file : List ℕ) (entries : List Entry) (place : ℕ) →
        Restarts net me entries file → IsRefused net me place file → ⊥ }
{}
