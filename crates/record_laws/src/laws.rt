//! What holds of the runs of all records.
ghost use Rattle.std.specs.Prelude.{◌≡◌, ◌<◌, ◌≤◌, ◌^◌, ℕ, List, Ok, false, length};
ghost use Rattle.model.specs.Fit.{AreFitEntries};
ghost use Rattle.model.specs.World.{World};
ghost use Rattle.record_runs.specs.Causes.{Cause, told};
ghost use Rattle.record_runs.specs.Ends.{run_of_script};
ghost use Rattle.record_runs.specs.Lines.{Day};
ghost use Rattle.record_runs.specs.Never.{never_comes};
ghost use Rattle.record_runs.specs.Runs.{done, stopped};
ghost use Rattle.night_records.specs.Days.{ArePlans};
ghost use Rattle.night_records.specs.Readings.{IsRead};
ghost use Rattle.night_records.specs.declared.records.Record.{Record as Records};

/// Where a text of fewer than 4,294,967,296 bytes is read to a record, the history that the run of this record reaches is
/// fit.
pub fn histories_of_records_are_fit()
    ensures { (text : List ℕ) → (r : Records) → (day : Day) → (x : World) → length text < 2 ^ 32 →
        IsRead text (Ok r) → ArePlans r.workload day → run_of_script day r.script ≡ done x → AreFitEntries x.history }
{}

/// Where a text of at most 2,147,483,648 bytes is read to a record, no run of this record stops because a line names a
/// workstation outside the network, because another than the master takes a plan, or at a limit that no replay reaches,
/// as that of places.
pub fn records_stop_otherwise()
    ensures { (text : List ℕ) → (r : Records) → (day : Day) → (line : ℕ) → (cause : Cause) → length text ≤ 2 ^ 31 →
        IsRead text (Ok r) → ArePlans r.workload day → run_of_script day r.script ≡ stopped line cause
        → never_comes (told cause) ≡ false }
{}
