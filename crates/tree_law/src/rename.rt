//! The refusals of `rename` in their order, and what it moves, over a tree in any form.
ghost use Rattle.std.specs.Prelude.{◌≡◌, ◌-◌, ◌<◌, length, take, nat_eq};
ghost use Rattle.std.specs.Cmp.Lexicographic.{pointwise};
ghost use Rattle.tree_law.specs.Resolve.{prefix_of, last_of};
ghost use Rattle.tree_law.specs.Rename.{is_at_or_below, landing, move_of, moving};

use crate::lookup::Lookup;
use crate::reply::Why;
use crate::resolving::{parent_of, resolve};
use cal_base::{Blob, Ino};

/// What a `rename` that nothing refuses does.
#[derive(Clone, Copy, Debug, PartialEq, Eq)]
pub struct Move {
    /// The directory that loses the name.
    pub from: Ino,
    /// The directory that gets the new name.
    pub to: Ino,
    /// What moves.
    pub ino: Ino,
    /// What the new name stood for.
    pub replaced: Option<Ino>,
    /// Both names are those of one entry, so that nothing moves.
    pub is_same: bool,
}

/// What a `rename` moves, or the first refusal.
pub fn move_of<L: Lookup>(nodes: &L, path: &[Blob], goal: &[Blob]) -> Result<Move, Why>
    ensures { result ≡ move_of (L.shows nodes.now) path.now goal.now }
{
    if path.is_empty() {
        return Err(Why::Busy);
    }
    if goal.is_empty() {
        return Err(Why::Busy);
    }
    match resolve(nodes, path) {
        Ok(ino) => match parent_of(nodes, path) {
            Ok(from) => match parent_of(nodes, goal) {
                Ok(to) => moving(nodes, path, goal, ino, from, to),
                Err(why) => Err(why),
            },
            Err(why) => Err(why),
        },
        Err(why) => Err(why),
    }
}

/// The move of an entry between two directories, or the first refusal.
fn moving<L: Lookup>(
    nodes: &L,
    path: &[Blob],
    goal: &[Blob],
    ino: Ino,
    from: Ino,
    to: Ino,
) -> Result<Move, Why>
    requires path { 0 < length path.now }
    requires goal { 0 < length goal.now }
    ensures { result ≡ moving (L.shows nodes.now) path.now goal.now ino from to }
{
    let name = &path[path.len() - 1];
    let goal_name = &goal[goal.len() - 1];
    if from.0 == to.0 && name == goal_name {
        return Ok(Move {
            from,
            to,
            ino,
            replaced: None,
            is_same: true,
        });
    }
    if nodes.is_directory(ino) && is_at_or_below(&goal[..goal.len() - 1], path) {
        return Err(Why::Inval);
    }
    landing(nodes, from, to, ino, nodes.look_up(to, goal_name))
}

/// Whether the entry can land where the new name stands for this.
fn landing<L: Lookup>(
    nodes: &L,
    from: Ino,
    to: Ino,
    ino: Ino,
    target: Result<Ino, Why>,
) -> Result<Move, Why>
    ensures { result ≡ landing (L.shows nodes.now) from to ino target }
{
    match target {
        Ok(target) => nodes.replacing(
            ino,
            target,
            Move {
                from,
                to,
                ino,
                replaced: Some(target),
                is_same: false,
            },
        ),
        Err(_) => {
            if from.0 != to.0 && nodes.is_full_directory(to) {
                return Err(Why::DirFull);
            }
            Ok(Move {
                from,
                to,
                ino,
                replaced: None,
                is_same: false,
            })
        }
    }
}

/// Whether a path names a place at or below that of another.
fn is_at_or_below(path: &[Blob], upper: &[Blob]) -> bool
    ensures { result ≡ is_at_or_below path.now upper.now }
{
    path.starts_with(upper)
}
