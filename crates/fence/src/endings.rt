ghost use Rattle.std.specs.Prelude.{ℕ, List, Result};
ghost use Rattle.shared_disk.specs.Disk.{Disk, KeepsCount};
ghost use Rattle.fence.specs.Port.{PortState};
ghost use Rattle.fence.specs.Writes.{Makes};
ghost use Rattle.fence.specs.Endings.{EndsAs, CountsAndKeeps};
ghost use Rattle.fence.specs.declared.port_halt.PortHalt.{PortHalt};

/// A list of writes that a port makes tells by how it ended which of them were accepted and what they
/// left: all; or nothing where it was refused; or the first ones where one failed or a stop was due,
/// and then how many the stop let through. What was accepted is counted, and kept as far as there is
/// room. The disk has as many sectors as before.
pub fn a_run_tells_what_was_written()
    ensures ends { (port : PortState) (old : Disk) (writes : List (ℕ × List ℕ)) (result : Result (Unit {0}) PortHalt) (port' : PortState) (new : Disk)
        → Makes port old writes result port' new → EndsAs port old writes result port' new }
    ensures count { (port : PortState) (old : Disk) (writes : List (ℕ × List ℕ)) (result : Result (Unit {0}) PortHalt) (port' : PortState) (new : Disk)
        → Makes port old writes result port' new → KeepsCount old new }
    ensures keeps { (port : PortState) (made : List (ℕ × List ℕ)) → CountsAndKeeps port made }
{}
