ghost use Rattle.std.specs.Prelude.{◌≡◌, [], Some, IfOk, true};
ghost use Rattle.std.specs.List.{filter};
ghost use Rattle.cal_base.specs.Limits as limits;
ghost use Rattle.token_table.specs.Table.{IsTable};
ghost use Rattle.tree_law.specs.Change.{is_change};
ghost use Rattle.volume_plan.specs.Plans.{is_opened};
ghost use Rattle.cluster_law.specs.Blocking.{is_open_by_some, opened_files};
ghost use Rattle.cluster_law.specs.Lists.{inodes_below};
ghost use Rattle.server_line.specs.Changed.{inode_found, inode_replaced, unnamed_by};
ghost use Rattle.server_line.specs.Known.{known};

use crate::resting::table_of;
use cal_base::{Ino, Items, Oom};
use image::Image;
use server_draft::Draft;
use std::alloc::Global;
use token_table::TokenTable;
use tree_law::{Call, Move, Why, move_of};

/// The inode that a change takes its last name from, if somebody has it open: of the files that are open the plan of
/// a change asks of that one alone.
pub(crate) fn opened_for(alloc: Global, draft: &Draft, call: &Call) -> Result<Items<Ino>, Oom>
    requires { is_change call.now ≡ true }
    ensures { IfOk result (λ opened. (ino : Ino) → unnamed_by draft.now.image call.now ≡ Some ino → is_opened opened ino ≡ is_opened (opened_files (known draft.now [])) ino) }
{
    match unnamed_by(&draft.image, call) {
        Some(ino) => opened_alone(alloc, table_of(draft), ino),
        None => Ok(Items::new(alloc)),
    }
}

/// This inode, if somebody has it open.
fn opened_alone(alloc: Global, table: &TokenTable, ino: Ino) -> Result<Items<Ino>, Oom>
    ensures { IfOk result (λ opened. IsTable table.now → is_opened opened ino ≡ is_opened (filter (is_open_by_some table.now) (inodes_below limits.inodes)) ino) }
{
    let mut opened = Items::new(alloc);
    if !table.is_opened(ino) {
        return Ok(opened);
    }
    opened.push(ino)?;
    Ok(opened)
}

/// The inode that a change takes its last name from, if there is one: what it removes or replaces.
fn unnamed_by(image: &Image, call: &Call) -> Option<Ino>
    requires { is_change call.now ≡ true }
    ensures { result ≡ unnamed_by image.now call.now }
{
    match call {
        Call::Create(_) => None,
        Call::Mkdir(_) => None,
        Call::Unlink(path) => inode_found(image.file_named(path.names())),
        Call::Rmdir(path) => inode_found(image.removable(path.names())),
        Call::Rename(path, goal) => inode_replaced(move_of(image, path.names(), goal.names())),
        _ => unreachable!(),
    }
}

/// The inode that was found.
fn inode_found(found: Result<Ino, Why>) -> Option<Ino>
    ensures { result ≡ inode_found found }
{
    match found {
        Ok(ino) => Some(ino),
        Err(_) => None,
    }
}

/// The inode that a move replaces.
fn inode_replaced(allowed: Result<Move, Why>) -> Option<Ino>
    ensures { result ≡ inode_replaced allowed }
{
    match allowed {
        Ok(shift) => shift.replaced,
        Err(_) => None,
    }
}
