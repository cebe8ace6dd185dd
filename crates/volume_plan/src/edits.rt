ghost use Rattle.std.specs.Prelude.{◌≡◌, ◌↔◌, ◌≤◌, ◌<◌, ◌^◌, ℕ, Contains, List};
ghost use Rattle.cal_base.specs.Limits as limits;
ghost use Rattle.cal_base.specs.declared.identity.ClientId.{ClientId};
ghost use Rattle.cal_base.specs.declared.identity.Ino.{Ino};
ghost use Rattle.token_kind.specs.declared.flush.Flush.{Flush};
ghost use Rattle.tree_law.specs.declared.call.Call.{Call};
ghost use Rattle.volume.specs.Stands.{AreBlocksKept};
ghost use Rattle.volume.specs.Volume.{Volume};
ghost use Rattle.volume_edit.specs.Blocks.{GoToFree, TakesFree};
ghost use Rattle.volume_edit.specs.Edit.{IsEdit, IsVolume};
ghost use Rattle.volume_plan.specs.Flushing.{CanTake, blocks_for, data_writes, flush_of};
ghost use Rattle.tree_law.specs.Change.{HasPaths};
ghost use Rattle.volume_plan.specs.Plans.{is_opened, plan, purge_of, reap_of};

/// The plan of each change keeps every volume within its grammar, whether or not that stands for a
/// history.
pub fn a_plan_is_an_edit()
    ensures { (v : Volume) (client : ClientId) (number : ℕ) (call : Call) (opened : List Ino) → IsVolume v → client.0 < limits.clients → 1 ≤ number → number < 2 ^ 64 → HasPaths call → IsEdit v (plan v client number call opened).edit }
{}

/// Each plan takes free blocks alone, whether or not the volume stands for a history: that of every
/// change, of a flush of a file for which there are blocks enough, of a purge and of a reaping. The pieces
/// of a flush go to free blocks too.
pub fn a_plan_takes_free_blocks()
    ensures change { (v : Volume) (client : ClientId) (number : ℕ) (call : Call) (opened : List Ino) → IsVolume v → AreBlocksKept v → TakesFree v (plan v client number call opened).edit }
    ensures flush { (v : Volume) (client : ClientId) (flush : Flush) → IsVolume v → AreBlocksKept v → CanTake v flush → TakesFree v (flush_of v client flush) }
    ensures pieces { (v : Volume) (flush : Flush) → GoToFree v (data_writes (blocks_for v flush) flush.pieces) }
    ensures purge { (v : Volume) (client : ClientId) → TakesFree v (purge_of v client) }
    ensures reap { (v : Volume) (ino : Ino) → TakesFree v (reap_of ino) }
{}

/// The plan of a change asks of the files that are open only whether a file is one of them: two lists of
/// the same files, in any order and with any repeats, give one plan.
pub fn a_plan_asks_only_what_is_open()
    ensures asked { (v : Volume) (client : ClientId) (number : ℕ) (call : Call) (some others : List Ino) → ((ino : Ino) → is_opened some ino ≡ is_opened others ino) → plan v client number call some ≡ plan v client number call others }
    ensures members { (v : Volume) (client : ClientId) (number : ℕ) (call : Call) (some others : List Ino) → ((ino : Ino) → Contains some ino ↔ Contains others ino) → plan v client number call some ≡ plan v client number call others }
{}
