//! What every step of a world counts.
ghost use Rattle.std.specs.Prelude.{◌≡◌, ◌+◌, ℕ, length};
ghost use Rattle.cluster_law.specs.declared.step.Event.{Event};
ghost use Rattle.cluster_law.specs.declared.step.TraceStep.{TraceStep};
ghost use Rattle.shared_disk.specs.Disk.{Disk};
ghost use Rattle.world.specs.Step.{StepsSo};
ghost use Rattle.world.specs.World.{WorldValue};

/// A step of a world is counted once, and each packet that it sends is one more of those that were sent.
pub fn a_step_is_counted()
    ensures { (old : WorldValue) (disk : Disk) (faults : ℕ) (event : Event) (step : TraceStep) (new : WorldValue) (disk' : Disk) (faults' : ℕ) → StepsSo old disk faults event step new disk' faults' → (new.steps ≡ old.steps + 1) × (length new.packets ≡ length old.packets + length step.sent) }
{}
