//! How the writes of a step end.
ghost use Rattle.std.specs.Prelude.{◌≢◌, [], ℕ, Bool, false, List, Result, Err};
ghost use Rattle.shared_disk.specs.Disk.{Disk};
ghost use Rattle.fence.specs.Port.{PortState};
ghost use Rattle.fence.specs.Writes.{Runs};
ghost use Rattle.fence.specs.declared.port_halt.PortHalt.{PortHalt};
ghost use Rattle.cluster_law.specs.DiskRules.{WritesOn};
ghost use Rattle.cluster_law.specs.Noted.{DiskAt};
ghost use Rattle.server_writes.specs.Ending.{IsReady, StandsAs, halt_by};
ghost use Rattle.server_writes.specs.Halted.{AreLeft};

/// A port that was armed, and keeps its writes in an empty list with room for all, makes these writes, fewer than
/// 2^64, as the law asks of a step that has planned them: what it kept is what was written, and a halt has the law's
/// cause. What it kept are the first writes, with the bytes of a torn one. No step halts that has nothing to write.
pub fn a_step_writes_as_the_law()
    ensures writes { (planned : List (ℕ × List ℕ)) (port port' : PortState) (old new : Disk) (faults faults' : ℕ) (result : Result (Unit {0}) PortHalt) (before after : DiskAt)
        → IsReady port planned → StandsAs old faults before → StandsAs new faults' after → Runs port old faults planned result port' new faults'
        → WritesOn false port.view planned port.stop before after port'.kept.writes (halt_by result faults') }
    ensures left { (planned : List (ℕ × List ℕ)) (port port' : PortState) (old new : Disk) (faults faults' : ℕ) (result : Result (Unit {0}) PortHalt)
        → IsReady port planned → Runs port old faults planned result port' new faults' → AreLeft planned port'.kept.writes }
    ensures some { (planned : List (ℕ × List ℕ)) (port port' : PortState) (old new : Disk) (faults faults' : ℕ) (halt : PortHalt)
        → Runs port old faults planned (Err halt) port' new faults' → planned ≢ [] }
{}
