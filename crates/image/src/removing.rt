ghost use Rattle.std.specs.Prelude.{◌≡◌, ◌≤◌, ◌<◌, IfOk};
ghost use Rattle.cal_base.specs.Limits as limits;
ghost use Rattle.std.specs.List.{list_any};
ghost use Rattle.tree_law.specs.Needs.{touches};
ghost use Rattle.tree_law.specs.Path.{IsPath};
ghost use Rattle.tree_law.specs.Resolve.{file_named, last_of, parent_of, removable};
ghost use Rattle.tree_law.specs.declared.call.Call.TheVariants.{Rmdir, Unlink};
ghost use Rattle.volume_edit.specs.Edit.{free_inode};
ghost use Rattle.volume_plan.specs.Plans.{inode_gone, is_opened, leaving_of, nameless, orphan, place_of, removing, removing_at};
ghost use Rattle.volume_plan.specs.Shown.{shown};
ghost use Rattle.image.specs.Planning.{plan_of, touch_numbers};

use crate::change_plan::{ChangePlan, TouchList};
use crate::image::Image;
use crate::making::last_of;
use crate::room::blank_inode;
use crate::touches::{touched_rmdir, touched_unlink};
use cal_base::{ClientId, Ino, Oom};
use directory::DirBlocks;
use inode::{Inode, Kind};
use std::alloc::Global;
use tree_law::{Path, Reply, Why};
use volume_edit::{Edit, InodeEdit, Leaving};

/// A free inode.
pub(crate) fn free_inode() -> Inode
    ensures { result ≡ free_inode }
{
    blank_inode(Kind::Free, false)
}

/// A file that no directory names.
fn orphan(inode: &Inode) -> Inode
    ensures { result ≡ orphan inode.now }
{
    Inode {
        kind: inode.kind,
        named: false,
        size: inode.size,
        blocks: inode.blocks,
    }
}

/// What is left of an inode that loses its last name: a file that is open stays, without a name.
fn nameless(inode: &Inode, opened: bool) -> Inode
    ensures { result ≡ nameless inode.now.kind inode.now opened }
{
    match inode.kind {
        Kind::File => { if opened { orphan(inode) } else { free_inode() } }
        Kind::Dir => free_inode(),
        Kind::Free => free_inode(),
    }
}

/// Whether an inode is one of those that are open.
fn is_opened(opened: &[Ino], ino: Ino) -> bool
    ensures { result ≡ is_opened opened.now ino }
{
    opened.iter().any(|other| other.0 == ino.0)
}

/// The place of a name in a directory; 0 where it doesn't stand.
pub(crate) fn place_of(entries: &DirBlocks, name: &[u8]) -> u16
    ensures { result ≡ place_of entries.now name.now }
{
    match entries.place(name) {
        Some(place) => place as u16,
        None => 0,
    }
}

impl Image {
    /// The edit of an inode that loses its last name.
    pub(crate) fn inode_gone(&self, opened: &[Ino], ino: Ino) -> InodeEdit
        requires { ino.0 < limits.inodes }
        ensures { result ≡ inode_gone self.now opened.now ino }
    {
        InodeEdit {
            ino,
            inode: nameless(self.inode(ino), is_opened(opened, ino)),
        }
    }

    /// The leaving of a name from a directory.
    pub(crate) fn leaving_of(&self, directory: Ino, name: &[u8]) -> Leaving
        requires { directory.0 < limits.inodes }
        ensures { result ≡ leaving_of self.now directory name.now }
    {
        Leaving {
            directory,
            place: place_of(self.entries_of(directory), name),
        }
    }

    /// The plan of `unlink`.
    pub(crate) fn plan_unlink(
        &self,
        alloc: Global,
        client: ClientId,
        number: u64,
        path: &Path,
        opened: &[Ino],
    ) -> Result<ChangePlan, Oom>
        requires { client.0 < limits.clients }
        ensures path { IsPath path.now }
        ensures plan { IfOk result (λ p. plan_of p ≡ removing_at self.now client number opened.now (touches (shown self.now) (Unlink path.now)) (parent_of (shown self.now) path.now) (file_named (shown self.now) path.now) (last_of path.now)) }
    {
        let place = self.parent(path.names());
        let file = self.file_named(path.names());
        let touches = touched_unlink(alloc, file, place)?;
        let name = last_of(path);
        Ok(self.removing_at(alloc, client, number, opened, touches, place, file, name))
    }

    /// The plan of `rmdir`.
    pub(crate) fn plan_rmdir(
        &self,
        alloc: Global,
        client: ClientId,
        number: u64,
        path: &Path,
        opened: &[Ino],
    ) -> Result<ChangePlan, Oom>
        requires { client.0 < limits.clients }
        ensures path { IsPath path.now }
        ensures plan { IfOk result (λ p. plan_of p ≡ removing_at self.now client number opened.now (touches (shown self.now) (Rmdir path.now)) (parent_of (shown self.now) path.now) (removable (shown self.now) path.now) (last_of path.now)) }
    {
        let place = self.parent(path.names());
        let directory = self.removable(path.names());
        let touches = touched_rmdir(alloc, directory, place)?;
        let name = last_of(path);
        Ok(self.removing_at(
            alloc, client, number, opened, touches, place, directory, name,
        ))
    }

    /// The plan of a removal, or the first refusal.
    fn removing_at(
        &self,
        alloc: Global,
        client: ClientId,
        number: u64,
        opened: &[Ino],
        touches: TouchList,
        place: Result<Ino, Why>,
        ino: Result<Ino, Why>,
        name: &[u8],
    ) -> ChangePlan
        requires client { client.0 < limits.clients }
        requires place { IfOk place (λ place. place.0 < limits.inodes) }
        requires ino { IfOk ino (λ ino. ino.0 < limits.inodes) }
        ensures { plan_of result ≡ removing_at self.now client number opened.now (touch_numbers touches) place ino name.now }
    {
        match ino {
            Ok(ino) => match place {
                Ok(place) => self.removing(client, number, opened, touches, place, ino, name),
                Err(why) => self.standing(alloc, client, number, Some(why)),
            },
            Err(why) => self.standing(alloc, client, number, Some(why)),
        }
    }

    /// The plan in which an entry goes, and what it named.
    fn removing(
        &self,
        client: ClientId,
        number: u64,
        opened: &[Ino],
        touches: TouchList,
        place: Ino,
        ino: Ino,
        name: &[u8],
    ) -> ChangePlan
        requires client { client.0 < limits.clients }
        requires place { place.0 < limits.inodes }
        requires ino { ino.0 < limits.inodes }
        ensures { plan_of result ≡ removing self.now client number opened.now (touch_numbers touches) place ino name.now }
    {
        ChangePlan {
            edit: Edit {
                slot: Some(self.answered(client, number, None)),
                inode: Some(self.inode_gone(opened, ino)),
                growth: None,
                leaving: Some(self.leaving_of(place, name)),
                entering: None,
            },
            reply: Reply::Done,
            new_ino: None,
            touches,
            needed: 0,
        }
    }
}
