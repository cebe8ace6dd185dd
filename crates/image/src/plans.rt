ghost use Rattle.std.specs.Prelude.{◌≡◌, ◌≤◌, ◌<◌, ◌∷◌, ℕ, List, true, IfOk};
ghost use Rattle.cal_base.specs.Limits as limits;
ghost use Rattle.cal_base.specs.declared.identity.Ino.{Ino};
ghost use Rattle.tree_law.specs.declared.entry.Entry.{Entry};
ghost use Rattle.tree_law.specs.declared.entry.Entry.TheVariants.{Call as Called};
ghost use Rattle.tree_law.specs.Change.{HasPaths, is_change};
ghost use Rattle.volume.specs.Stands.{AreBlocksKept};
ghost use Rattle.volume_edit.specs.Blocks.{TakesFree};
ghost use Rattle.volume_edit.specs.Edit.{IsEdit, IsVolume};
ghost use Rattle.volume_edit.specs.Homes.{AreHomes};
ghost use Rattle.volume_plan.specs.Leads.{IsAsked, Mounted};
ghost use Rattle.volume_plan.specs.Plans.{plan};
ghost use Rattle.image.specs.EntryPlans.{EntryStands};
ghost use Rattle.image.specs.Planning.{plan_of};

use crate::change_plan::ChangePlan;
use crate::image::Image;
use cal_base::{ClientId, INODES, Ino, Oom};
use inode::Kind;
use shared_disk::Txn;
use std::alloc::Global;
use tree_law::Call;

/// The plan of a change, and the transaction that carries it out.
#[derive(Drop)]
pub struct Planned {
    pub plan: ChangePlan,
    /// The homes that its edit alters, as they are then.
    pub txn: Txn,
}

impl Image {
    /// Plans a client's change: `create`, `mkdir`, `unlink`, `rmdir` or `rename`, with a number from 1.
    /// `opened` has the files that anybody has open. The image stays as it is; after `Oom` too.
    ///
    /// With the transaction in place, sectors that stood for a history stand for it with the change and
    /// the plan's reply. A plan doesn't look at reservations: whoever uses it compares the blocks that it
    /// needs with those that are free beside them.
    pub fn plan_change(
        &self,
        alloc: Global,
        client: ClientId,
        number: u64,
        call: &Call,
        opened: &[Ino],
    ) -> Result<Planned, Oom>
        requires client { client.0 < limits.clients }
        requires number { 1 ≤ number }
        requires change { is_change call.now ≡ true }
        ensures plan { IfOk result (λ p. plan_of p.plan ≡ plan self.now client number call.now opened.now) }
        ensures allowed { IfOk result (λ p. IsEdit self.now p.plan.edit) }
        ensures takes { IfOk result (λ p. AreBlocksKept self.now → TakesFree self.now p.plan.edit) }
        ensures homes { IfOk result (λ p. AreHomes self.now p.plan.edit p.txn) }
        ensures stands { IfOk result (λ p. (sectors : List (List ℕ)) (history : List Entry) → Mounted sectors self.now history → IsAsked history client number call.now opened.now
            → EntryStands sectors self.now history p.plan.edit p.txn (Called client number call.now p.plan.reply p.plan.new_ino)) }
    {
        let plan = self.changing(alloc, client, number, call, opened)?;
        let txn = self.homes_of(alloc, &plan.edit)?;
        Ok(Planned { plan, txn })
    }

    /// What a change alters, and its reply.
    fn changing(
        &self,
        alloc: Global,
        client: ClientId,
        number: u64,
        call: &Call,
        opened: &[Ino],
    ) -> Result<ChangePlan, Oom>
        requires client { client.0 < limits.clients }
        requires change { is_change call.now ≡ true }
        ensures paths { HasPaths call.now }
        ensures plan { IfOk result (λ p. plan_of p ≡ plan self.now client number call.now opened.now) }
        ensures volume { IsVolume self.now }
    {
        prove!(self.inodes.len() == INODES);
        match call {
            Call::Create(path) => self.plan_making(alloc, client, number, path, Kind::File),
            Call::Mkdir(path) => self.plan_making(alloc, client, number, path, Kind::Dir),
            Call::Unlink(path) => self.plan_unlink(alloc, client, number, path, opened),
            Call::Rmdir(path) => self.plan_rmdir(alloc, client, number, path, opened),
            Call::Rename(path, goal) => {
                self.plan_rename(alloc, client, number, path, goal, opened)
            }
            _ => unreachable!(),
        }
    }
}
