ghost use Rattle.std.specs.Prelude.{◌≡◌, ◌≤◌, ◌<◌, ◌∷◌, [], IfOk, length};
ghost use Rattle.cal_base.specs.Limits as limits;
ghost use Rattle.volume.specs.Volume.{Slots};
ghost use Rattle.volume_plan.specs.Plans.{answered, blocks_needed, free_count, grows, growth_of, if_room, slot_alone, standing};
ghost use Rattle.image.specs.Planning.{plan_of, reply_for, touch_numbers};

use crate::image::Image;
use cal_base::{ClientId, DIRECTORY_ENTRIES, Ino, Items, Oom};
use directory::DirBlocks;
use request_log::Slot;
use std::alloc::Global;
use token_kind::Class;
use tree_law::{Reply, Why};
use volume_edit::{Edit, Growth, SlotEdit};

/// Inodes, each with a class of tokens.
pub type TouchList = Items<(Ino, Class)>;

/// What a change alters, and what is to be known of it.
#[derive(Debug, Drop)]
pub struct ChangePlan {
    /// What it alters of the volume.
    pub edit: Edit,
    /// Its reply.
    pub reply: Reply,
    /// The inode that it makes.
    pub new_ino: Option<Ino>,
    /// What it touches, in order: nobody may hold any of these.
    pub touches: TouchList,
    /// How many free blocks it needs.
    pub needed: u16,
}

/// The reply of a change that is refused so, or carried out.
pub(crate) fn reply_for(refused: Option<Why>) -> Reply
    ensures { result ≡ reply_for refused }
{
    match refused {
        Some(why) => Reply::Refused(why),
        None => Reply::Done,
    }
}

impl Image {
    /// The slot of a client with the number and the reply of a change.
    pub(crate) fn answered(&self, client: ClientId, number: u64, refused: Option<Why>) -> SlotEdit
        requires { client.0 < limits.clients }
        ensures { result ≡ answered self.now client number (reply_for refused) }
    {
        let slot = self.slot(client);
        SlotEdit {
            client,
            slot: Slot {
                purged: slot.purged,
                call: number,
                flush: slot.flush,
                reply: reply_for(refused),
            },
        }
    }

    /// A change that alters the slot alone.
    pub(crate) fn standing(
        &self,
        alloc: Global,
        client: ClientId,
        number: u64,
        refused: Option<Why>,
    ) -> ChangePlan
        requires { client.0 < limits.clients }
        ensures { plan_of result ≡ standing self.now client number (reply_for refused) }
    {
        ChangePlan {
            edit: slot_alone(self.answered(client, number, refused)),
            reply: reply_for(refused),
            new_ino: None,
            touches: Items::new(alloc),
            needed: 0,
        }
    }

    /// The plan, if there are as many free blocks as it needs; else one that is refused for want of
    /// them, and touches the same.
    pub(crate) fn if_room(&self, client: ClientId, number: u64, plan: ChangePlan) -> ChangePlan
        requires { client.0 < limits.clients }
        ensures { plan_of result ≡ if_room self.now client number (plan_of plan) }
    {
        let free = self.free();
        if free >= plan.needed {
            return plan;
        }
        let needed = plan.needed;
        let refused = Some(Why::NoSpace { free, needed });
        ChangePlan {
            edit: slot_alone(self.answered(client, number, refused)),
            reply: reply_for(refused),
            new_ino: None,
            touches: plan.touches,
            needed,
        }
    }

    /// The growth of a directory in which no slot is empty.
    pub(crate) fn growth_of(&self, directory: Ino, adds: bool) -> Option<Growth>
        ensures { (slots : Slots) → adds ≡ grows slots → result ≡ growth_of self.now directory slots }
    {
        if !adds {
            return None;
        }
        match self.least_block() {
            Some(block) => Some(Growth { directory, block }),
            None => None,
        }
    }
}

/// The edit of a slot alone.
pub(crate) fn slot_alone(slot: SlotEdit) -> Edit
    ensures { result ≡ slot_alone slot }
{
    Edit {
        slot: Some(slot),
        inode: None,
        growth: None,
        leaving: None,
        entering: None,
    }
}

/// Whether the next entry of a directory adds a block.
pub(crate) fn does_grow(entries: &DirBlocks) -> bool
    ensures { result ≡ grows entries.now }
{
    let slots = entries.slots().len();
    entries.first_empty() == slots && slots < DIRECTORY_ENTRIES
}
