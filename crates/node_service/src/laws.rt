//! What follows for two services of one disk.
ghost use Rattle.std.specs.Prelude.{ℕ, ◌++◌, ◌≡◌, ◌≤◌, List, Some, length, take};
ghost use Rattle.std.specs.List.{All};
ghost use Rattle.composer_parser.specs.declared.Defs.{Defs};
ghost use Rattle.model.specs.Types.{Entry, Net};
ghost use Rattle.message_file.specs.Files.{kept_of};
ghost use Rattle.node_inputs.specs.Tellings.{Told};
ghost use Rattle.node_inputs.specs.Keeping.{IsLeftWith, IsWritten, bodies};
ghost use Rattle.node_inputs.specs.Traces.{Trace, kept, tried};
ghost use Rattle.node_inputs.specs.declared.ends.NodeEnd.{NodeEnd};
ghost use Rattle.node_inputs.specs.declared.ends.NodeEnd.TheVariants.{DiskFault};
ghost use Rattle.node_restart.specs.Restarting.{Restarts};
ghost use Rattle.node_service.specs.Joining.{GoesOn};
ghost use Rattle.node_service.specs.Serving.{HasRun};
ghost use Rattle.workload_defs.specs.Nets.{net_of};

use outside::Disk;

/// A node that is made of a file which a stop left of a service holds what the first node held, and behind it what that
/// service kept: all of it behind its end, with the one entry in hand at most where the disk failed. A stop behind a front
/// of the trace leaves at least all that this front kept; one between two fronts leaves no more than was to be kept up to
/// the later.
pub fn services_of_one_disk_join<D: Disk>()
    ensures at_end { (defs : Defs) (me turns : ℕ) (why : NodeEnd) (old new : D) (told now : Told)
        (run : HasRun D.seen D.faults D.moment D.may_leave D.left_since defs me turns why old new told now)
        (before file : List ℕ) (entries : List Entry) → D.seen old ≡ Some before → D.may_leave new file
        → Restarts (net_of defs) me entries file
        → GoesOn run.start.kept run.trace (length (kept run.trace)) entries }
    ensures unfailed { (defs : Defs) (me turns : ℕ) (why : NodeEnd) (old new : D) (told now : Told)
        (run : HasRun D.seen D.faults D.moment D.may_leave D.left_since defs me turns why old new told now)
        (before file : List ℕ) (entries : List Entry) → D.seen old ≡ Some before → D.may_leave new file
        → Restarts (net_of defs) me entries file → (why ≡ DiskFault → ⊥)
        → entries ≡ run.start.kept ++ kept run.trace }
    ensures behind { (defs : Defs) (me turns : ℕ) (why : NodeEnd) (old new : D) (told now : Told)
        (run : HasRun D.seen D.faults D.moment D.may_leave D.left_since defs me turns why old new told now)
        (before file : List ℕ) (entries : List Entry) → D.seen old ≡ Some before
        → D.left_since new (D.moment run.attached) file → Restarts (net_of defs) me entries file
        → GoesOn run.start.kept run.trace 0 entries }
    ensures later { (defs : Defs) (me turns : ℕ) (why : NodeEnd) (old new : D) (told now : Told)
        (run : HasRun D.seen D.faults D.moment D.may_leave D.left_since defs me turns why old new told now)
        (before file : List ℕ) (entries : List Entry) (k : ℕ) → D.seen old ≡ Some before
        → D.left_since new (D.moment (run.at_front k)) file → Restarts (net_of defs) me entries file
        → GoesOn run.start.kept run.trace (length (kept (take k run.trace))) entries }
    ensures between { (defs : Defs) (me turns : ℕ) (why : NodeEnd) (old new : D) (told now : Told)
        (run : HasRun D.seen D.faults D.moment D.may_leave D.left_since defs me turns why old new told now)
        (before file : List ℕ) (entries : List Entry) (j k : ℕ) → D.seen old ≡ Some before → j ≤ k
        → D.left_since (run.at_front k) (D.moment (run.at_front j)) file → Restarts (net_of defs) me entries file
        → GoesOn run.start.kept (take k run.trace) (length (kept (take j run.trace))) entries }
{}
