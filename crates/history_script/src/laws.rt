//! What holds of all histories.
ghost use Rattle.std.specs.Prelude.{◌≡◌, ◌<◌, ℕ, IsTrue, List, Some, length};
ghost use Rattle.std.specs.List.{list_all};
ghost use Rattle.history_script.specs.Digits.{digits_of, is_byte, some_bytes};

/// The digits of bytes are read back to them, where there are any.
pub fn digits_are_read_back()
    ensures { (bytes : List ℕ) → IsTrue (list_all is_byte bytes) → 0 < length bytes
        → some_bytes (digits_of bytes) ≡ Some bytes }
{}
