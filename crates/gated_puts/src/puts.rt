//! One piece more at the end of a file.
ghost use Rattle.std.specs.Prelude.{◌≡◌, ◌+◌, ◌<◌, ◌≤◌, ◌^◌, length, OnOk, OnErr, IfSome};
ghost use Rattle.outside.specs.Causes.{HasCause};
ghost use Rattle.outside.specs.Files.{Told, Only};
ghost use Rattle.outside.specs.Stops.{LeavesOnly};
ghost use Rattle.gated_puts.specs.Steps.{EndsAt, HasPiece, Opened, Behind, Stands, StandsOf, IsStaged, StagedOf, IsGated, GatedOf};

use outside::{Disk, Failed};

/// Writes a piece behind the closed gate at the file's end, and then opens the gate. Once it has succeeded, the piece
/// stands behind an open gate whatever stop comes. Where it fails, open the file again.
pub fn put<D: Disk>(disk: &mut D, gate: u64, piece: &[u8]) -> Result<(), Failed>
    requires settled { IfSome (D.seen disk.old) (λ file. EndsAt gate file (D.may_leave disk.old)) }
    requires room { gate + 1 + length piece.now < 2 ^ 63 }

    ensures opened { OnOk result (Told (Opened gate piece.now) (D.seen disk.old) (D.seen disk.new)) }
    ensures durable { OnOk result (IfSome (D.seen disk.new) (λ file. Only file (D.may_leave disk.new))) }

    // A stop at any moment leaves the file as it was with anything behind it, or with the piece behind any gate.
    ensures any_moment { LeavesOnly D.moment D.left_since disk.old disk.new (StagedOf gate piece.now (D.seen disk.old)) }
    ensures left { (file : _) → D.may_leave disk.new file → StagedOf gate piece.now (D.seen disk.old) file }
    ensures failed { OnErr result (Told (IsStaged gate piece.now) (D.seen disk.old) (D.seen disk.new)) }
    ensures cause { HasCause (D.faults disk.old) (D.faults disk.new) result }
{
    stage(disk, gate, piece)?;
    open_gate(disk, gate, piece)
}

/// Writes the piece behind the end.
fn stage<D: Disk>(disk: &mut D, gate: u64, piece: &[u8]) -> Result<(), Failed>
    requires settled { IfSome (D.seen disk.old) (λ file. EndsAt gate file (D.may_leave disk.old)) }
    requires room { gate + 1 + length piece.now < 2 ^ 63 }
    ensures staged { OnOk result (Told (Behind piece.now) (D.seen disk.old) (D.seen disk.new)) }
    ensures durable { OnOk result (IfSome (D.seen disk.new) (λ file. Only file (D.may_leave disk.new))) }
    ensures any_moment { LeavesOnly D.moment D.left_since disk.old disk.new (StandsOf (D.seen disk.old)) }
    ensures left { (file : _) → D.may_leave disk.new file → StandsOf (D.seen disk.old) file }
    ensures failed { OnErr result (Told Stands (D.seen disk.old) (D.seen disk.new)) }
    ensures cause { HasCause (D.faults disk.old) (D.faults disk.new) result }
{
    disk.write_at(gate + 1, piece)?;
    disk.sync()
}

/// Opens the gate before the piece.
fn open_gate<D: Disk>(disk: &mut D, gate: u64, piece: &[u8]) -> Result<(), Failed>
    requires staged { IfSome (D.seen disk.old) (λ file. HasPiece gate piece.now file (D.may_leave disk.old)) }
    requires room { gate + 1 + length piece.now < 2 ^ 63 }
    ensures opened { OnOk result (Told (Opened gate piece.now) (D.seen disk.old) (D.seen disk.new)) }
    ensures durable { OnOk result (IfSome (D.seen disk.new) (λ file. Only file (D.may_leave disk.new))) }
    ensures any_moment { LeavesOnly D.moment D.left_since disk.old disk.new (GatedOf gate piece.now (D.seen disk.old)) }
    ensures left { (file : _) → D.may_leave disk.new file → GatedOf gate piece.now (D.seen disk.old) file }
    ensures failed { OnErr result (Told (IsGated gate piece.now) (D.seen disk.old) (D.seen disk.new)) }
    ensures cause { HasCause (D.faults disk.old) (D.faults disk.new) result }
{
    let _ = piece;
    disk.write_at(gate, &[1])?;
    disk.sync()
}
