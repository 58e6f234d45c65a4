// A disk that stops at one of its calls.
ghost use Rattle.std.specs.Prelude.{◌≡◌, ◌+◌, ◌-◌, ◌≤◌, ◌<◌, ◌^◌, List, ℕ, nat_lt, length, take, drop, IfOk, OnOk, OnErr, IfSome};
ghost use Rattle.outside.specs.Causes.{one_more, HasCause};
ghost use Rattle.outside.specs.Files.{Told, Holds, Keeps, Follows, Reaches, Torn, Cut, Only};
ghost use Rattle.outside.specs.Stops.{Elapses};
ghost use Rattle.outside_mem.specs.Stopping.{IsCounted};

use outside::{Disk, Failed};
use std::marker::Model;

/// A disk over another, all of whose calls fail from one of them on. These don't reach the disk below, as after a stop.
#[derive(Drop)]
pub struct StoppingDisk<D> {
    disk: D,
    left: u64,
    faults: u64,
}

impl<D> Model for StoppingDisk<D> {
    ghost use Rattle.outside_mem.specs.Stopping.{StoppingState};

    ghost Value = { StoppingState D };

    ghost view = { λ s. record { disk = s.disk; left = s.left; faults = s.faults } };
}

impl<D: Disk> StoppingDisk<D> {
    /// A disk over this one, which makes so many calls before all fail.
    pub fn new(disk: D, calls: u64) -> Self
        ensures value { result ≡ record { disk = disk; left = calls; faults = 0 } }
        ensures faults { ⟦<StoppingDisk<D> as Disk>⟧.faults result ≡ 0 }
    {
        StoppingDisk {
            disk,
            left: calls,
            faults: 0,
        }
    }

    /// The disk below.
    pub fn into_disk(self) -> D
        ensures { result ≡ self.disk }
    {
        self.disk
    }

    /// Fails a call.
    fn fail(&mut self) -> Failed
        ensures disk { self.new.disk ≡ self.old.disk }
        ensures left { self.new.left ≡ self.old.left }
        ensures faults { self.new.faults ≡ one_more self.old.faults }
        ensures later { self.old.faults ≤ self.new.faults }
    {
        self.faults = self.faults.saturating_add(1);
        Failed
    }

    /// Counts a call. Whether it is still made.
    fn goes_on(&mut self) -> bool
        ensures disk { self.new.disk ≡ self.old.disk }
        ensures faults { self.new.faults ≡ self.old.faults }
        ensures left { self.new.left ≡ self.old.left - 1 }
        ensures made { result ≡ nat_lt 0 self.old.left }
    {
        let goes_on = self.left > 0;
        self.left = self.left.saturating_sub(1);
        goes_on
    }
}

impl<D: Disk> Disk for StoppingDisk<D> {
    ghost seen = { λ s. D.seen s.disk };

    ghost may_leave = { λ s. D.may_leave s.disk };

    ghost moment = { λ s. D.moment s.disk };

    ghost left_since = { λ s. D.left_since s.disk };

    ghost faults = { λ s. s.faults };

    ghost seen_may_be_left = { λ s. D.seen_may_be_left s.disk };

    ghost counts_now = { λ s. D.counts_now s.disk };

    ghost only_now = { λ s. D.only_now s.disk };

    /// It fails where no call is left, and else as the disk below does.
    fn len(&mut self) -> Result<u64, Failed>
        ensures length { IfOk result (λ n. IfSome (D.seen self.old.disk) (λ file. n ≡ length file)) }
        ensures seen { D.seen self.new.disk ≡ D.seen self.old.disk }
        ensures crash { (file : List ℕ) → D.may_leave self.new.disk file → D.may_leave self.old.disk file }
        ensures still { (file : List ℕ) → D.may_leave self.old.disk file → D.may_leave self.new.disk file }
        ensures time { Elapses (D.moment self.old.disk) (D.moment self.new.disk) (D.left_since self.old.disk) (D.left_since self.new.disk) (D.may_leave self.new.disk) }
        ensures cause { HasCause self.old.faults self.new.faults result }

        // Past the trait's clauses: how many calls are made.
        ensures counted { IsCounted D.faults self.old self.new result }
    {
        if self.goes_on()
            && let Ok(n) = self.disk.len()
        {
            return Ok(n);
        }
        Err(self.fail())
    }

    /// It fails where no call is left, and else as the disk below does.
    fn read_at(&mut self, at: u64, buf: &mut [u8]) -> Result<(), Failed>
        requires inside { IfSome (D.seen self.old.disk) (λ file. at + length buf.old ≤ length file) }
        ensures bytes { OnOk result (IfSome (D.seen self.old.disk) (λ file. buf.new ≡ take (length buf.old) (drop at file))) }
        ensures seen { D.seen self.new.disk ≡ D.seen self.old.disk }
        ensures crash { (file : List ℕ) → D.may_leave self.new.disk file → D.may_leave self.old.disk file }
        ensures still { (file : List ℕ) → D.may_leave self.old.disk file → D.may_leave self.new.disk file }
        ensures time { Elapses (D.moment self.old.disk) (D.moment self.new.disk) (D.left_since self.old.disk) (D.left_since self.new.disk) (D.may_leave self.new.disk) }
        ensures cause { HasCause self.old.faults self.new.faults result }

        // Past the trait's clauses: how many calls are made.
        ensures counted { IsCounted D.faults self.old self.new result }
    {
        if self.goes_on() && self.disk.read_at(at, buf).is_ok() {
            return Ok(());
        }
        Err(self.fail())
    }

    /// It fails where no call is left, and else as the disk below does.
    fn write_at(&mut self, at: u64, piece: &[u8]) -> Result<(), Failed>
        requires inside { IfSome (D.seen self.old.disk) (λ file. at ≤ length file) }
        requires end { at + length piece.now < 2 ^ 64 }
        ensures written { OnOk result (Told (Holds at piece.now) (D.seen self.old.disk) (D.seen self.new.disk)) }
        ensures failed { OnErr result (Told (Torn at (length piece.now)) (D.seen self.old.disk) (D.seen self.new.disk)) }
        ensures crash { Follows (Torn at (length piece.now)) (D.may_leave self.old.disk) (D.may_leave self.new.disk) }
        ensures any_part { OnOk result (Reaches (Torn at (length piece.now)) (D.may_leave self.old.disk) (D.may_leave self.new.disk)) }
        ensures time { Elapses (D.moment self.old.disk) (D.moment self.new.disk) (D.left_since self.old.disk) (D.left_since self.new.disk) (D.may_leave self.new.disk) }
        ensures cause { HasCause self.old.faults self.new.faults result }

        // Past the trait's clauses: how many calls are made.
        ensures counted { IsCounted D.faults self.old self.new result }
    {
        if self.goes_on() && self.disk.write_at(at, piece).is_ok() {
            return Ok(());
        }
        Err(self.fail())
    }

    /// It fails where no call is left, and else as the disk below does.
    fn cut(&mut self, len: u64) -> Result<(), Failed>
        requires inside { IfSome (D.seen self.old.disk) (λ file. len ≤ length file) }
        ensures done { OnOk result (Told (Keeps len) (D.seen self.old.disk) (D.seen self.new.disk)) }
        ensures failed { OnErr result (Told (Cut len) (D.seen self.old.disk) (D.seen self.new.disk)) }
        ensures crash { Follows (Cut len) (D.may_leave self.old.disk) (D.may_leave self.new.disk) }
        ensures any_part { OnOk result (Reaches (Cut len) (D.may_leave self.old.disk) (D.may_leave self.new.disk)) }
        ensures time { Elapses (D.moment self.old.disk) (D.moment self.new.disk) (D.left_since self.old.disk) (D.left_since self.new.disk) (D.may_leave self.new.disk) }
        ensures cause { HasCause self.old.faults self.new.faults result }

        // Past the trait's clauses: how many calls are made.
        ensures counted { IsCounted D.faults self.old self.new result }
    {
        if self.goes_on() && self.disk.cut(len).is_ok() {
            return Ok(());
        }
        Err(self.fail())
    }

    /// It fails where no call is left, and else as the disk below does.
    fn sync(&mut self) -> Result<(), Failed>
        ensures durable { OnOk result (IfSome (D.seen self.new.disk) (λ file. Only file (D.may_leave self.new.disk))) }
        ensures seen { D.seen self.new.disk ≡ D.seen self.old.disk }
        ensures crash { (file : List ℕ) → D.may_leave self.new.disk file → D.may_leave self.old.disk file }
        ensures time { Elapses (D.moment self.old.disk) (D.moment self.new.disk) (D.left_since self.old.disk) (D.left_since self.new.disk) (D.may_leave self.new.disk) }
        ensures cause { HasCause self.old.faults self.new.faults result }

        // Past the trait's clauses: how many calls are made.
        ensures counted { IsCounted D.faults self.old self.new result }
    {
        if self.goes_on() && self.disk.sync().is_ok() {
            return Ok(());
        }
        Err(self.fail())
    }
}
