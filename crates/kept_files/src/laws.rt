//! The laws of what a file keeps.
ghost use Rattle.std.specs.Prelude.{◌≡◌, ℕ, List};
ghost use Rattle.outside.specs.Kept.{Bodies};
ghost use Rattle.kept_files.specs.Growth.{GoesOn, IsNoFileAt, Keeps, KeepsMore};

/// A file keeps one list of bodies and is not refused, and what a node does to it again and again is what a node does.
pub fn own_files_are_not_refused()
    ensures one_list { (owner : ℕ) (file : List ℕ) (a b : Bodies) → Keeps owner file a → Keeps owner file b → a ≡ b }
    ensures not_refused { (owner place : ℕ) (file : List ℕ) (kept : Bodies) →
        Keeps owner file kept → IsNoFileAt owner place file → ⊥ }
    ensures still { (owner : ℕ) (file : List ℕ) → KeepsMore owner file file }
    ensures again { (owner : ℕ) (a b c : List ℕ) → KeepsMore owner a b → KeepsMore owner b c → KeepsMore owner a c }
{}
