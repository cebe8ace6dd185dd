ghost use Rattle.std.specs.Prelude.{◌≡◌, ◌/◌, ℕ, List, length};
ghost use Rattle.cal_base.specs.Limits as limits;
ghost use Rattle.cal_base.specs.declared.identity.ClientId.{ClientId};
ghost use Rattle.token_kind.specs.Flush.{piece_at};
ghost use Rattle.token_kind.specs.declared.flush.Flush.{Flush};
ghost use Rattle.tree_law.specs.FileState.{FileState};
ghost use Rattle.tree_law.specs.declared.entry.Entry.{Entry};
ghost use Rattle.volume.specs.Stands.{AreBlocksKept};
ghost use Rattle.volume.specs.Volume.{SpellsVolume, Volume, file_byte};
ghost use Rattle.volume_edit.specs.Edit.{IsVolume};
ghost use Rattle.volume_plan.specs.Flushing.{CanTake, FlushLeads, IsFlushDue, byte_over, inode_flushed, with_pieces};
ghost use Rattle.volume_plan.specs.Leads.{Mounted};

/// A flush that is due: its pieces go to free blocks, so that the sectors stand for the history as it was
/// wherever a stop ends them. With the homes in place behind them the sectors stand for the history with
/// the flush: the file's present bytes last.
pub fn a_flush_stands()
    ensures { (sectors : List (List ℕ)) (v : Volume) (history : List Entry) (client : ClientId) (flush : Flush) (file : FileState) → Mounted sectors v history → IsFlushDue v history client flush file
        → FlushLeads sectors v history client flush }
{}

/// A file that is read behind its own flush's pieces: where the pieces are written to their blocks, the
/// flushed inode has the bytes of the piece where there is one, and elsewhere those that it had by the same
/// pointers before the pieces were written. So its blocks may be read from the sectors as they were, and
/// the pieces be laid over them.
pub fn a_flush_reads_with_its_pieces()
    ensures { (sectors : List (List ℕ)) (v : Volume) (flush : Flush) → length sectors ≡ limits.sectors → SpellsVolume sectors v → IsVolume v → AreBlocksKept v → CanTake v flush → (i : ℕ)
        → file_byte (with_pieces sectors v flush) (inode_flushed v flush) i ≡ byte_over (piece_at flush.pieces (i / limits.block_size)) i (file_byte sectors (inode_flushed v flush) i) }
{}
