ghost use Rattle.std.specs.Prelude.{◌≡◌, ◌≤◌, ◌<◌, ◌^◌, IfOk, IfSome, Ok, length, slice_index_or, []};
ghost use Rattle.cal_base.specs.Limits as limits;
ghost use Rattle.std.specs.Option.{option_map};
ghost use Rattle.directory.specs.Directory.{first_empty};
ghost use Rattle.tree_law.specs.Needs.{touches};
ghost use Rattle.tree_law.specs.Path.{IsPath};
ghost use Rattle.tree_law.specs.Rename.{move_of};
ghost use Rattle.tree_law.specs.Resolve.{last_of};
ghost use Rattle.tree_law.specs.declared.call.Call.TheVariants.{Rename};
ghost use Rattle.volume.specs.Volume.{slots_of};
ghost use Rattle.volume_plan.specs.Plans.{growth_moved, grows, if_there, inode_gone, moving, moving_by, needed_moved, place_entered, place_of, slots_without};
ghost use Rattle.volume_plan.specs.Shown.{shown};
ghost use Rattle.image.specs.Planning.{plan_of, touch_numbers};

use crate::change_plan::{ChangePlan, TouchList, does_grow};
use crate::image::Image;
use crate::making::{first_place, last_of, needed_by};
use crate::removing::place_of;
use cal_base::{ClientId, INODES, Ino, Oom};
use directory::{DirEntry, EntryName};
use std::alloc::Global;
use tree_law::{Move, Path, Reply, Why, move_of};
use volume_edit::{Edit, Entering, Growth, InodeEdit};

/// The first empty slot of a directory, and whether an entry there adds a block.
#[derive(Clone, Copy)]
struct Spot {
    place: u16,
    adds: bool,
}

/// Where a moved entry lands.
#[derive(Clone, Copy)]
struct Landing {
    place: u16,
    growth: Option<Growth>,
    needed: u16,
}

impl Image {
    /// The first empty slot of the directory that gets the entry, once the entry has left the other.
    fn spot_for(&self, shift: Move, name: &[u8]) -> Spot
        requires from { shift.from.0 < limits.inodes }
        requires to { shift.to.0 < limits.inodes }
        requires within { place_of (slots_of self.now shift.from.0) name.now < length (slots_of self.now shift.from.0) }
        ensures place { result.place ≡ first_empty (slots_without self.now shift name.now) }
        ensures adds { result.adds ≡ grows (slots_without self.now shift name.now) }
    {
        let entries = self.entries_of(shift.to);
        let first = first_place(entries);
        if shift.from.0 != shift.to.0 {
            return Spot {
                place: first,
                adds: does_grow(entries),
            };
        }
        let left = place_of(entries, name);
        Spot {
            place: if left < first { left } else { first },
            adds: false,
        }
    }

    /// Where the entry of a move lands: in the slot of the name that it replaces, or in an empty one.
    fn landing_of(&self, shift: Move, name: &[u8], goal: &[u8]) -> Landing
        requires from { shift.from.0 < limits.inodes }
        requires to { shift.to.0 < limits.inodes }
        requires within { place_of (slots_of self.now shift.from.0) name.now < length (slots_of self.now shift.from.0) }
        ensures place { result.place ≡ place_entered self.now shift name.now goal.now }
        ensures growth { result.growth ≡ growth_moved self.now shift name.now }
        ensures needed { result.needed ≡ needed_moved self.now shift name.now }
    {
        if shift.replaced.is_some() {
            return Landing {
                place: place_of(self.entries_of(shift.to), goal),
                growth: None,
                needed: 0,
            };
        }
        let spot = self.spot_for(shift, name);
        Landing {
            place: spot.place,
            growth: self.growth_of(shift.to, spot.adds),
            needed: needed_by(spot.adds),
        }
    }

    /// The edit of the inode that a move replaces.
    fn target_gone(&self, opened: &[Ino], target: Option<Ino>) -> Option<InodeEdit>
        requires { IfSome target (λ ino. ino.0 < limits.inodes) }
        ensures { result ≡ option_map (inode_gone self.now opened.now) target }
    {
        match target {
            Some(ino) => Some(self.inode_gone(opened, ino)),
            None => None,
        }
    }

    /// The plan in which an entry moves.
    fn moving_plan(
        &self,
        client: ClientId,
        number: u64,
        opened: &[Ino],
        touches: TouchList,
        shift: Move,
        name: &[u8],
        goal: &[u8],
    ) -> ChangePlan
        requires client { client.0 < limits.clients }
        requires from { shift.from.0 < limits.inodes }
        requires to { shift.to.0 < limits.inodes }
        requires target { IfSome shift.replaced (λ ino. ino.0 < limits.inodes) }
        requires goal { length goal.now ≤ limits.name_bytes }
        requires within { place_of (slots_of self.now shift.from.0) name.now < length (slots_of self.now shift.from.0) }
        ensures { plan_of result ≡ moving self.now client number opened.now (touch_numbers touches) shift name.now goal.now }
    {
        let landing = self.landing_of(shift, name, goal);
        ChangePlan {
            edit: Edit {
                slot: Some(self.answered(client, number, None)),
                inode: self.target_gone(opened, shift.replaced),
                growth: landing.growth,
                leaving: Some(self.leaving_of(shift.from, name)),
                entering: Some(Entering {
                    directory: shift.to,
                    place: landing.place,
                    entry: DirEntry {
                        name: EntryName::new(goal),
                        ino: shift.ino,
                    },
                }),
            },
            reply: Reply::Done,
            new_ino: None,
            touches,
            needed: landing.needed,
        }
    }

    /// A move of what stands; a name that stands for nothing counts as absent.
    fn if_there(&self, allowed: Result<Move, Why>) -> Result<Move, Why>
        ensures { result ≡ if_there self.now allowed }
    {
        match allowed {
            Ok(shift) => {
                if shift.is_same || self.is_shown(shift.ino) {
                    Ok(shift)
                } else {
                    Err(Why::NoEnt)
                }
            }
            Err(why) => Err(why),
        }
    }

    /// The plan of a move that the tree allows.
    fn moving_by(
        &self,
        alloc: Global,
        client: ClientId,
        number: u64,
        opened: &[Ino],
        touches: TouchList,
        shift: Move,
        path: &Path,
        goal: &Path,
    ) -> ChangePlan
        requires client { client.0 < limits.clients }
        requires moves { if_there self.now (move_of (shown self.now) path.now goal.now) ≡ Ok shift }
        ensures { plan_of result ≡ moving_by self.now client number opened.now (touch_numbers touches) (Ok shift) (last_of path.now) (last_of goal.now) }
    {
        prove!(self.inodes.len() == INODES);
        if shift.is_same {
            return self.standing(alloc, client, number, None);
        }
        let name = last_of(path);
        let plan = self.moving_plan(client, number, opened, touches, shift, name, last_of(goal));
        self.if_room(client, number, plan)
    }

    /// The plan of `rename`.
    pub(crate) fn plan_rename(
        &self,
        alloc: Global,
        client: ClientId,
        number: u64,
        path: &Path,
        goal: &Path,
        opened: &[Ino],
    ) -> Result<ChangePlan, Oom>
        requires { client.0 < limits.clients }
        ensures path { IsPath path.now }
        ensures goal { IsPath goal.now }
        ensures plan { IfOk result (λ p. plan_of p ≡ moving_by self.now client number opened.now (touches (shown self.now) (Rename path.now goal.now)) (if_there self.now (move_of (shown self.now) path.now goal.now)) (last_of path.now) (last_of goal.now)) }
    {
        let allowed = move_of(self, path.names(), goal.names());
        let touches = self.touched_rename(alloc, allowed)?;
        match self.if_there(allowed) {
            Ok(shift) => Ok(self.moving_by(
                alloc, client, number, opened, touches, shift, path, goal,
            )),
            Err(why) => Ok(self.standing(alloc, client, number, Some(why))),
        }
    }
}
