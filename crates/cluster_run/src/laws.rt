//! That a good script is carried out.
ghost use Rattle.std.specs.Prelude.{◌≡◌, ◌≤◌, ◌⊎◌, ℕ, List};
ghost use Rattle.cal_base.specs.Faults.{Rose};
ghost use Rattle.cluster_run.specs.Following.{DiskAt};
ghost use Rattle.cluster_run.specs.Run.{EndsSo, IsRunCommand};
ghost use Rattle.cluster_run.specs.ScriptRun.{FailsInFormat};
ghost use Rattle.run_status.specs.Edge.{Edge, Took};
ghost use Rattle.run_status.specs.declared.status.Status.{Status};
ghost use Rattle.run_status.specs.declared.status.Status.TheVariants.{Ok, OutOfMemory};
ghost use Rattle.script.specs.Lines.{lines_of};
ghost use Rattle.script.specs.Script.{IsFirstBad};
ghost use Rattle.script.specs.declared.bad_line.BadLine.{BadLine};

/// Where the words are the command, no line of what is read is bad, the disk's key is at most 1, and neither the
/// source nor the sink fails, nor the disk while it is formatted, a run carries out all lines, or memory runs out. A
/// disk that fails in its format has counted it.
pub fn a_good_script_is_run()
    ensures ends { (words : List (List ℕ)) (before now : Edge) (disk disk' : DiskAt) (status : Status) → EndsSo words before now disk disk' status → IsRunCommand words
        → ((input : List ℕ) (bad : BadLine) → Took before now input → ¬ (IsFirstBad (lines_of input) bad))
        → ¬ (Rose before.source_faults now.source_faults) → ¬ (Rose before.sink_faults now.sink_faults) → ¬ (FailsInFormat disk disk') → disk.disk.key ≤ 1 → (status ≡ Ok) ⊎ (status ≡ OutOfMemory) }
    ensures counts { (disk disk' : DiskAt) → FailsInFormat disk disk' → Rose disk.faults disk'.faults }
{}
