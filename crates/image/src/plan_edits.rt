ghost use Rattle.std.specs.Prelude.{◌≡◌, ◌≤◌, ◌<◌, ℕ, true, false, List, None, IfOk};
ghost use Rattle.cal_base.specs.Limits as limits;
ghost use Rattle.shared_disk.specs.Sectors.{written};
ghost use Rattle.tree_law.specs.Legal.{tree_of};
ghost use Rattle.tree_law.specs.Tree.{is_purged, node_at};
ghost use Rattle.tree_law.specs.declared.entry.Entry.{Entry};
ghost use Rattle.tree_law.specs.declared.entry.Entry.TheVariants.{Purge};
ghost use Rattle.volume.specs.Stands.{StandsForHistory};
ghost use Rattle.volume_edit.specs.Blocks.{TakesFree};
ghost use Rattle.volume_edit.specs.Edit.{IsEdit, IsVolume, edited, inode_at, slot_at};
ghost use Rattle.volume_edit.specs.Homes.{AreHomes};
ghost use Rattle.volume_plan.specs.Leads.{Mounted};
ghost use Rattle.volume_plan.specs.Plans.{purge_of, reap_of};
ghost use Rattle.image.specs.EntryPlans.{EntryStands};
ghost use Rattle.image.specs.Image.{is_orphan};

use crate::change_plan::slot_alone;
use crate::image::Image;
use crate::removing::free_inode;
use crate::slots::slot_again;
use cal_base::{ClientId, INODES, Ino, Oom};
use request_log::Slot;
use shared_disk::Txn;
use std::alloc::Global;
use volume_edit::{Edit, InodeEdit, SlotEdit};

/// An edit with its homes.
#[derive(Drop)]
pub struct EditPlan {
    /// What it alters of the volume.
    pub edit: Edit,
    /// The sectors to write, in one transaction.
    pub txn: Txn,
}

impl Image {
    /// The plan of a purge: the client's slot says that it is purged, and keeps the rest. It has one
    /// home. The image is as it was until the edit is made.
    pub fn plan_purge(&self, alloc: Global, client: ClientId) -> Result<EditPlan, Oom>
        requires { client.0 < limits.clients }
        ensures edit { IfOk result (λ plan. plan.edit ≡ purge_of self.now client) }
        ensures allowed { IfOk result (λ plan. IsEdit self.now plan.edit) }
        ensures takes { IfOk result (λ plan. TakesFree self.now plan.edit) }
        ensures homes { IfOk result (λ plan. AreHomes self.now plan.edit plan.txn) }
        ensures stands { IfOk result (λ plan. (sectors : List (List ℕ)) (history : List Entry) → Mounted sectors self.now history → is_purged (tree_of history) client ≡ false
            → EntryStands sectors self.now history plan.edit plan.txn (Purge client)) }
    {
        let edit = self.purge_of(client);
        let plan = self.with_homes(alloc, edit)?;
        Ok(plan)
    }

    /// The plan of the reaping of a file without a name: its inode and its blocks are free then.
    pub fn plan_reap(&self, alloc: Global, ino: Ino) -> Result<EditPlan, Oom>
        requires to_511 { ino.0 < limits.inodes }
        requires orphan { is_orphan (inode_at self.now.inodes ino.0) ≡ true }
        ensures edit { IfOk result (λ plan. plan.edit ≡ reap_of ino) }
        ensures allowed { IfOk result (λ plan. IsEdit self.now plan.edit) }
        ensures takes { IfOk result (λ plan. TakesFree self.now plan.edit) }
        ensures homes { IfOk result (λ plan. AreHomes self.now plan.edit plan.txn) }
        ensures stands { IfOk result (λ plan. (sectors : List (List ℕ)) (history : List Entry) → Mounted sectors self.now history → node_at (tree_of history) ino ≡ None
            → StandsForHistory (written sectors plan.txn) (edited self.now plan.edit) history) }
    {
        let edit = self.reap_of(ino);
        let plan = self.with_homes(alloc, edit)?;
        Ok(plan)
    }

    /// What a purge of a client alters.
    fn purge_of(&self, client: ClientId) -> Edit
        requires { client.0 < limits.clients }
        ensures edit { result ≡ purge_of self.now client }
        ensures is { IsEdit self.now result }
    {
        let slot = self.slot_again(client);
        slot_alone(SlotEdit {
            client,
            slot: Slot {
                purged: true,
                call: slot.call,
                flush: slot.flush,
                reply: slot.reply,
            },
        })
    }

    /// What the reaping of an orphan alters.
    fn reap_of(&self, ino: Ino) -> Edit
        requires to_511 { ino.0 < limits.inodes }
        requires orphan { is_orphan (inode_at self.now.inodes ino.0) ≡ true }
        ensures edit { result ≡ reap_of ino }
        ensures is { IsEdit self.now result }
    {
        prove!(self.inodes.len() == INODES);
        Edit {
            slot: None,
            inode: Some(InodeEdit {
                ino,
                inode: free_inode(),
            }),
            growth: None,
            leaving: None,
            entering: None,
        }
    }

    /// The slot of a client once more.
    pub(crate) fn slot_again(&self, client: ClientId) -> Slot
        requires { client.0 < limits.clients }
        ensures at { result ≡ slot_at self.now.slots client.0 }
        ensures volume { IsVolume self.now }
    {
        slot_again(self.slot(client))
    }

    /// An edit with its homes.
    pub(crate) fn with_homes(&self, alloc: Global, edit: Edit) -> Result<EditPlan, Oom>
        requires { IsEdit self.now edit }
        ensures edit { IfOk result (λ plan. plan.edit ≡ edit) }
        ensures homes { IfOk result (λ plan. AreHomes self.now edit plan.txn) }
    {
        let txn = self.homes_of(alloc, &edit)?;
        Ok(EditPlan { edit, txn })
    }
}
