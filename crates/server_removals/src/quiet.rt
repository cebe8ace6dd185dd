ghost use Rattle.std.specs.Prelude.{◌≡◌, ◌&&◌};
ghost use Rattle.token_kind.specs.declared.«class».Class.TheVariants.{Attr, Data};
ghost use Rattle.cluster_law.specs.Asking.{deserted};
ghost use Rattle.cluster_law.specs.Removing.{removes_nothing};
ghost use Rattle.cluster_law.specs.ServerState.{ServerState};
ghost use Rattle.server_desk.specs.Desk.{IsLike};
ghost use Rattle.server_removals.specs.Removals.{at_desk, gone_in, has_dealt, is_asked_for, is_asked_of_all, is_used, rests_with_orphans};

use crate::gone_clients::least_due;
use crate::holders::{is_asked_of_all, is_held_by_some};
use crate::orphans::least_deserted;
use cal_base::Ino;
use image::Image;
use membership::Members;
use server_desk::Desk;
use token_kind::Class;

/// Whether a tick would neither remove nor ask for anything: no client is to be purged, and, where the server is
/// admitted, there is no file without a name that nobody has open, or somebody holds its bytes or its size, and all
/// such holds are asked back. It takes no memory.
pub fn removes_nothing(desk: &Desk, image: &Image, members: &Members) -> bool
    ensures { (server : ServerState) → IsLike desk.now server → server.volume ≡ image.now → result ≡ removes_nothing (gone_in members.now) server }
{
    least_due(image, members).is_none() && is_at_rest(desk, image)
}

/// Whether the server isn't admitted, or has dealt with the orphan that comes first.
fn is_at_rest(desk: &Desk, image: &Image) -> bool
    ensures { result ≡ rests_with_orphans (at_desk desk.now image.now) }
{
    desk.missing().is_some() || is_dealt_with(desk, image)
}

/// Whether there is no file without a name that nobody has open, or the least one is asked for.
fn is_dealt_with(desk: &Desk, image: &Image) -> bool
    ensures { result ≡ has_dealt (at_desk desk.now image.now) (deserted (at_desk desk.now image.now)) }
{
    match least_deserted(desk, image) {
        None => true,
        Some(ino) => is_asked_for(desk, ino),
    }
}

/// Whether somebody holds the bytes or the size of a file, and all such holds are asked back.
fn is_asked_for(desk: &Desk, ino: Ino) -> bool
    ensures { result ≡ is_asked_for desk.now ino }
{
    is_used(desk, ino) && is_asked_of_both(desk, ino)
}

/// Whether somebody holds the bytes or the size of a file.
fn is_used(desk: &Desk, ino: Ino) -> bool
    ensures { result ≡ is_used desk.now.collecting.table ino }
{
    is_held_by_some(desk.table(), ino, Class::Data)
        || is_held_by_some(desk.table(), ino, Class::Attr)
}

/// Whether all holds of the bytes and the size of a file are asked back.
fn is_asked_of_both(desk: &Desk, ino: Ino) -> bool
    ensures { result ≡ (is_asked_of_all desk.now ino Data && is_asked_of_all desk.now ino Attr) }
{
    is_asked_of_all(desk, ino, Class::Data) && is_asked_of_all(desk, ino, Class::Attr)
}
