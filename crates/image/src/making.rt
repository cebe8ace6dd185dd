ghost use Rattle.std.specs.Prelude.{◌≡◌, ◌≤◌, ◌<◌, ◌∷◌, [], IfOk, length, if◌then◌else◌};
ghost use Rattle.cal_base.specs.Limits as limits;
ghost use Rattle.directory.specs.Directory.{first_empty};
ghost use Rattle.tree_law.specs.Path.{IsPath};
ghost use Rattle.tree_law.specs.Resolve.{last_of, new_place};
ghost use Rattle.volume_plan.specs.Plans.{making, making_at, making_if, least_inode, new_inode};
ghost use Rattle.volume_plan.specs.Shown.{shown};
ghost use Rattle.image.specs.Planning.{plan_of};

use crate::change_plan::{ChangePlan, does_grow};
use crate::image::Image;
use crate::room::blank_inode;
use crate::touches::touched_names;
use cal_base::{Blob, ClientId, Ino, Oom};
use directory::{DirBlocks, DirEntry, EntryName};
use inode::{Inode, Kind};
use std::alloc::Global;
use tree_law::{Path, Reply, Why};
use volume_edit::{Edit, Entering, InodeEdit};

/// The last name of a path; no bytes for the root.
pub(crate) fn last_of(path: &Path) -> &[u8]
    ensures name { result.now ≡ last_of path.now }
    ensures short { length result.now ≤ limits.name_bytes }
{
    match path.names() {
        [.., name] => name.as_slice(),
        [] => &[],
    }
}

/// An inode of a file or directory that is just made.
fn new_inode(kind: Kind) -> Inode
    ensures { result ≡ new_inode kind }
{
    blank_inode(kind, true)
}

/// The place of a directory's first empty slot, at most 1,024.
pub(crate) fn first_place(entries: &DirBlocks) -> u16
    ensures { result ≡ first_empty entries.now }
{
    entries.first_empty() as u16
}

/// How many blocks the next entry of a directory needs.
pub(crate) fn needed_by(adds: bool) -> u16
    ensures { result ≡ (if adds then 1 else 0) }
{
    if adds { 1 } else { 0 }
}

impl Image {
    /// The plan of `create` or `mkdir`.
    pub(crate) fn plan_making(
        &self,
        alloc: Global,
        client: ClientId,
        number: u64,
        path: &Path,
        kind: Kind,
    ) -> Result<ChangePlan, Oom>
        requires { client.0 < limits.clients }
        ensures path { IsPath path.now }
        ensures plan { IfOk result (λ p. plan_of p ≡ making_at self.now client number (new_place (shown self.now) path.now) (last_of path.now) kind) }
    {
        match self.new_place(path.names()) {
            Ok(place) => self.making_if(alloc, client, number, place, last_of(path), kind),
            Err(why) => Ok(self.standing(alloc, client, number, Some(why))),
        }
    }

    /// The plan where nothing but want of an inode or of blocks refuses it.
    fn making_if(
        &self,
        alloc: Global,
        client: ClientId,
        number: u64,
        place: Ino,
        name: &[u8],
        kind: Kind,
    ) -> Result<ChangePlan, Oom>
        requires client { client.0 < limits.clients }
        requires place { place.0 < limits.inodes }
        requires name { length name.now ≤ limits.name_bytes }
        ensures { IfOk result (λ p. plan_of p ≡ making_if self.now client number place name.now kind (least_inode self.now)) }
    {
        let Some(ino) = self.least_inode() else {
            return Ok(self.standing(alloc, client, number, Some(Why::NoInode)));
        };
        let plan = self.making(alloc, client, number, place, name, kind, ino)?;
        Ok(self.if_room(client, number, plan))
    }

    /// The plan with this inode.
    fn making(
        &self,
        alloc: Global,
        client: ClientId,
        number: u64,
        place: Ino,
        name: &[u8],
        kind: Kind,
        ino: Ino,
    ) -> Result<ChangePlan, Oom>
        requires client { client.0 < limits.clients }
        requires place { place.0 < limits.inodes }
        requires name { length name.now ≤ limits.name_bytes }
        ensures { IfOk result (λ p. plan_of p ≡ making self.now client number place name.now kind ino) }
    {
        let entries = self.entries_of(place);
        let adds = does_grow(entries);
        let touches = touched_names(alloc, Ok(place))?;
        Ok(ChangePlan {
            edit: Edit {
                slot: Some(self.answered(client, number, None)),
                inode: Some(InodeEdit {
                    ino,
                    inode: new_inode(kind),
                }),
                growth: self.growth_of(place, adds),
                leaving: None,
                entering: Some(Entering {
                    directory: place,
                    place: first_place(entries),
                    entry: DirEntry {
                        name: EntryName::new(name),
                        ino,
                    },
                }),
            },
            reply: Reply::Done,
            new_ino: Some(ino),
            touches,
            needed: needed_by(adds),
        })
    }
}
