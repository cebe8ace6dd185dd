ghost use Rattle.std.specs.Prelude.{◌≡◌, ◌≤◌, ◌<◌, ◌+◌, ◌^◌, ℕ, All, List, length, take, IfOk};
ghost use Rattle.cal_base.specs.Limits as limits;
ghost use Rattle.inode.specs.Inode.{IsInode};
ghost use Rattle.inode.specs.declared.inode.Kind.TheVariants.{File};
ghost use Rattle.cal_base.specs.Blocks.{block_count};
ghost use Rattle.token_kind.specs.Flush.{IsFlush};
ghost use Rattle.tree_law.specs.FileState.{FileState};
ghost use Rattle.tree_law.specs.declared.entry.Entry.{Entry};
ghost use Rattle.volume.specs.Stands.{AreBlocksKept};
ghost use Rattle.volume_edit.specs.Blocks.{GoToFree, TakesFree};
ghost use Rattle.volume_edit.specs.Edit.{IsEdit, IsVolume, inode_at, slot_at};
ghost use Rattle.volume_edit.specs.Homes.{AreHomes};
ghost use Rattle.volume_plan.specs.Flushing.{IsFlushDue, blocks_for, cut_pointers, data_writes, flush_of, flushed_inode, free_from, pointed_at};
ghost use Rattle.volume_plan.specs.Leads.{Mounted};
ghost use Rattle.volume_plan.specs.Plans.{free_count};
ghost use Rattle.image.specs.EntryPlans.{FlushStands};

use crate::image::Image;
use cal_base::{BLOCK_SIZE, ClientId, Items, Oom, Sector};
use inode::Inode;
use request_log::Slot;
use shared_disk::{FIRST_BLOCK, Txn};
use space_map::SpaceMap;
use std::alloc::Global;
use token_kind::Flush;
use volume_edit::{Edit, InodeEdit, SlotEdit};

/// Writes of whole sectors, in order.
pub type SectorWrites = Items<(u32, Sector)>;

/// A flush: its blocks, and then an edit with its homes.
#[derive(Drop)]
pub struct FlushPlan {
    /// The writes of the pieces to free blocks, which come before the transaction.
    pub data: SectorWrites,
    /// What it alters of the volume.
    pub edit: Edit,
    /// The sectors to write behind the data, in one transaction.
    pub txn: Txn,
}

impl Image {
    /// The plan of a client's next flush, of a file, for which there are blocks enough: the pieces go to
    /// the least free blocks, and the inode points at them. The image is as it was until the edit is made.
    pub fn plan_flush(
        &self,
        alloc: Global,
        client: ClientId,
        flush: &Flush,
    ) -> Result<FlushPlan, Oom>
        requires known { client.0 < limits.clients }
        requires is { IsFlush flush.now }
        requires file { (inode_at self.now.inodes flush.now.ino.0).kind ≡ File }
        requires enough { length flush.now.pieces ≤ free_count self.now }
        ensures data { IfOk result (λ plan. plan.data ≡ data_writes (blocks_for self.now flush.now) flush.now.pieces) }
        ensures edit { IfOk result (λ plan. plan.edit ≡ flush_of self.now client flush.now) }
        ensures goes { IfOk result (λ plan. GoToFree self.now plan.data) }
        ensures allowed { IfOk result (λ plan. IsEdit self.now plan.edit) }
        ensures takes { IfOk result (λ plan. AreBlocksKept self.now → TakesFree self.now plan.edit) }
        ensures homes { IfOk result (λ plan. AreHomes self.now plan.edit plan.txn) }
        ensures stands { IfOk result (λ plan. (sectors : List (List ℕ)) (history : List Entry) (file : FileState) → Mounted sectors self.now history → IsFlushDue self.now history client flush.now file
            → FlushStands sectors self.now history client flush.now plan.data plan.edit plan.txn) }
    {
        let blocks = self.blocks_for(alloc, flush)?;
        let data = data_writes(alloc, &blocks, flush.pieces.as_slice())?;
        let edit = self.flush_of(client, flush, &blocks);
        let plan = self.with_homes(alloc, edit)?;
        Ok(FlushPlan {
            data,
            edit: plan.edit,
            txn: plan.txn,
        })
    }

    /// The least free blocks, as many as there are pieces.
    fn blocks_for(&self, alloc: Global, flush: &Flush) -> Result<Vec<u16>, Oom>
        ensures { IfOk result (λ blocks. blocks.items ≡ blocks_for self.now flush.now) }
    {
        let blocks = least_blocks(alloc, &self.map, flush.pieces.len())?;
        Ok(blocks)
    }

    /// What a flush of a client alters, with these blocks.
    fn flush_of(&self, client: ClientId, flush: &Flush, blocks: &[u16]) -> Edit
        requires known { client.0 < limits.clients }
        requires is { IsFlush flush.now }
        requires file { (inode_at self.now.inodes flush.now.ino.0).kind ≡ File }
        requires enough { length flush.now.pieces ≤ free_count self.now }
        requires blocks { blocks.now ≡ blocks_for self.now flush.now }
        ensures edit { result ≡ flush_of self.now client flush.now }
        ensures is { IsEdit self.now result }
        ensures volume { IsVolume self.now }
    {
        Edit {
            slot: Some(self.counted(client, flush.number)),
            inode: Some(InodeEdit {
                ino: flush.ino,
                inode: flushed_inode(self.inode(flush.ino), flush, blocks),
            }),
            growth: None,
            leaving: None,
            entering: None,
        }
    }

    /// The slot of a client with the number of a flush.
    fn counted(&self, client: ClientId, number: u64) -> SlotEdit
        requires { client.0 < limits.clients }
        ensures slot { result ≡ (record { client = client; slot = record { purged = (slot_at self.now.slots client.0).purged; call = (slot_at self.now.slots client.0).call; flush = number; reply = (slot_at self.now.slots client.0).reply } }) }
        ensures fits { number < 2 ^ 64 }
        ensures volume { IsVolume self.now }
    {
        let slot = self.slot_again(client);
        SlotEdit {
            client,
            slot: Slot {
                purged: slot.purged,
                call: slot.call,
                flush: number,
                reply: slot.reply,
            },
        }
    }
}

/// The least free blocks, so many.
fn least_blocks(alloc: Global, map: &SpaceMap, count: usize) -> Result<Vec<u16>, Oom>
    requires { length map.now ≡ limits.blocks }
    ensures { IfOk result (λ blocks. blocks.items ≡ take count (free_from 0 map.now)) }
{
    let mut left = map.copy();
    let mut blocks = Vec::with_capacity(alloc, count)?;
    for _taken in 0..count {
        let Some(block) = left.take_least() else {
            break;
        };
        blocks.push(block)?;
    }
    Ok(blocks)
}

/// The writes of pieces to blocks.
fn data_writes(alloc: Global, blocks: &[u16], pieces: &[(u8, Sector)]) -> Result<SectorWrites, Oom>
    ensures { IfOk result (λ writes. writes ≡ data_writes blocks.now pieces.now) }
{
    let mut writes = Vec::with_capacity(alloc, pieces.len())?;
    for place in 0..pieces.len().min(blocks.len()) {
        writes.push((FIRST_BLOCK + u32::from(blocks[place]), pieces[place].1))?;
    }
    Ok(Items::from_vec(writes))
}

/// The inode of a file after a flush.
fn flushed_inode(inode: &Inode, flush: &Flush, blocks: &[u16]) -> Inode
    requires inode { IsInode inode.now }
    requires flush { IsFlush flush.now }
    requires blocks { All (λ block. block < limits.blocks) blocks.now }
    ensures { result ≡ flushed_inode inode.now flush.now blocks.now }
{
    let mut flushed = *inode;
    flushed.size = flush.size;
    cut_pointers(
        &mut flushed.blocks,
        (flush.cut as usize).div_ceil(BLOCK_SIZE),
    );
    point_at(&mut flushed.blocks, flush.pieces.as_slice(), blocks);
    flushed
}

/// Makes the pointers from a place on holes.
fn cut_pointers(pointers: &mut [u16], from: usize)
    requires { from ≤ length pointers.old }
    ensures { pointers.new ≡ cut_pointers from pointers.old }
{
    pointers[from..].fill(0);
}

/// Points at the blocks of pieces, by their indexes.
fn point_at(pointers: &mut [u16], pieces: &[(u8, Sector)], blocks: &[u16])
    requires pieces { All (λ piece. piece.0 < length pointers.old) pieces.now }
    requires blocks { All (λ block. block < limits.blocks) blocks.now }
    ensures { pointers.new ≡ pointed_at pointers.old pieces.now blocks.now }
{
    for place in 0..pieces.len().min(blocks.len()) {
        pointers[pieces[place].0 as usize] = blocks[place] + 1;
    }
}
