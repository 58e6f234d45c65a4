// A disk that may stop at any moment.
ghost use Rattle.std.specs.Prelude.{◌≡◌, ◌+◌, ◌<◌, ◌≤◌, ◌^◌, List, ℕ, length, take, drop, IfOk, OnOk, OnErr, IfSome};
ghost use Rattle.std.specs.declared.option.Option.{Option};
ghost use Rattle.outside.specs.Causes.{HasCause};
ghost use Rattle.outside.specs.Stops.{Elapses};
ghost use Rattle.outside.specs.Files.{Told, Holds, Keeps, Follows, Reaches, Torn, Cut, Only};

use crate::Failed;

/// A file on a disk that may stop at any moment.
///
/// Between two syncs a stop may leave other bytes than reads give: each range that was written, and all behind the least
/// length since then, may hold any bytes, and the length is one of those from the least to the greatest. All other
/// bytes stay. A write or a cut that fails counts as made. `stops_leave_exactly_these` says the same of any number of
/// calls at once.
pub trait Disk {
    /// The bytes that reads give, where the disk tells them.
    ghost seen: { Self → Option (List ℕ) };

    /// The files that it tells a stop at this moment may leave. A disk that doesn't know tells none.
    ghost may_leave: { Self → List ℕ → Type 0 };

    /// The moment, a number that does not fall.
    ghost moment: { Self → ℕ };

    /// The files that it tells a stop at some moment from that one on might have left, during a call or between two.
    ghost left_since: { Self → ℕ → List ℕ → Type 0 };

    /// The count of its faults, up to 2^64 - 1: it rises in each call that fails, and in no other.
    ghost faults: { Self → ℕ };

    /// How many bytes the file has.
    fn len(&mut self) -> Result<u64, Failed>
        ensures length { IfOk result (λ n. IfSome (seen self.old) (λ file. n ≡ length file)) }
        ensures seen { seen self.new ≡ seen self.old }
        ensures crash { (file : List ℕ) → may_leave self.new file → may_leave self.old file }
        ensures still { (file : List ℕ) → may_leave self.old file → may_leave self.new file }
        ensures time { Elapses (moment self.old) (moment self.new) (left_since self.old) (left_since self.new) (may_leave self.new) }
        ensures cause { HasCause (faults self.old) (faults self.new) result };

    /// Fills the buffer with the bytes from a place on.
    fn read_at(&mut self, at: u64, buf: &mut [u8]) -> Result<(), Failed>
        requires inside { IfSome (seen self.old) (λ file. at + length buf.old ≤ length file) }
        ensures bytes { OnOk result (IfSome (seen self.old) (λ file. buf.new ≡ take (length buf.old) (drop at file))) }
        ensures seen { seen self.new ≡ seen self.old }
        ensures crash { (file : List ℕ) → may_leave self.new file → may_leave self.old file }
        ensures still { (file : List ℕ) → may_leave self.old file → may_leave self.new file }
        ensures time { Elapses (moment self.old) (moment self.new) (left_since self.old) (left_since self.new) (may_leave self.new) }
        ensures cause { HasCause (faults self.old) (faults self.new) result };

    /// Writes the piece over what is there from a place on, and past the end. Where it fails, it counts as made.
    fn write_at(&mut self, at: u64, piece: &[u8]) -> Result<(), Failed>
        requires inside { IfSome (seen self.old) (λ file. at ≤ length file) }
        requires end { at + length piece.now < 2 ^ 64 }
        ensures written { OnOk result (Told (Holds at piece.now) (seen self.old) (seen self.new)) }
        ensures failed { OnErr result (Told (Torn at (length piece.now)) (seen self.old) (seen self.new)) }
        ensures crash { Follows (Torn at (length piece.now)) (may_leave self.old) (may_leave self.new) }
        ensures any_part { OnOk result (Reaches (Torn at (length piece.now)) (may_leave self.old) (may_leave self.new)) }
        ensures time { Elapses (moment self.old) (moment self.new) (left_since self.old) (left_since self.new) (may_leave self.new) }
        ensures cause { HasCause (faults self.old) (faults self.new) result };

    /// Cuts the file to a length. Where it fails, it counts as made.
    fn cut(&mut self, len: u64) -> Result<(), Failed>
        requires inside { IfSome (seen self.old) (λ file. len ≤ length file) }
        ensures done { OnOk result (Told (Keeps len) (seen self.old) (seen self.new)) }
        ensures failed { OnErr result (Told (Cut len) (seen self.old) (seen self.new)) }
        ensures crash { Follows (Cut len) (may_leave self.old) (may_leave self.new) }
        ensures any_part { OnOk result (Reaches (Cut len) (may_leave self.old) (may_leave self.new)) }
        ensures time { Elapses (moment self.old) (moment self.new) (left_since self.old) (left_since self.new) (may_leave self.new) }
        ensures cause { HasCause (faults self.old) (faults self.new) result };

    /// After it a stop leaves what reads give.
    fn sync(&mut self) -> Result<(), Failed>
        ensures durable { OnOk result (IfSome (seen self.new) (λ file. Only file (may_leave self.new))) }
        ensures seen { seen self.new ≡ seen self.old }
        ensures crash { (file : List ℕ) → may_leave self.new file → may_leave self.old file }
        ensures time { Elapses (moment self.old) (moment self.new) (left_since self.old) (left_since self.new) (may_leave self.new) }
        ensures cause { HasCause (faults self.old) (faults self.new) result };

    /// Where it tells a file that a stop may leave, what reads give is one of them.
    ghost seen_may_be_left: { (disk : Self) (file : List ℕ) → may_leave disk file → IfSome (seen disk) (may_leave disk) };

    /// This moment is one of those since an earlier one.
    ghost counts_now: { (disk : Self) (t : ℕ) (file : List ℕ) → t ≤ moment disk → may_leave disk file → left_since disk t file };

    /// Since this moment there is no other.
    ghost only_now: { (disk : Self) (file : List ℕ) → left_since disk (moment disk) file → may_leave disk file };
}
