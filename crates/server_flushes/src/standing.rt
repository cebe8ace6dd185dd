ghost use Rattle.std.specs.Prelude.{◌≡◌, ◌<◌, [], IsTrue, nat_eq};
ghost use Rattle.cal_base.specs.Limits as limits;
ghost use Rattle.token_kind.specs.Flush.{IsFlush};
ghost use Rattle.token_kind.specs.Hold.{hold_number};
ghost use Rattle.token_kind.specs.declared.«class».Class.TheVariants.{Data};
ghost use Rattle.token_table.specs.Table.{IsTable, held_of};
ghost use Rattle.volume_edit.specs.Edit.{IsVolume, inode_at};
ghost use Rattle.cluster_law.specs.ServerState.{is_file_kind, uses_new_flush};
ghost use Rattle.server_desk.specs.Desk.{with_desk};
ghost use Rattle.server_flushes.specs.Flushes.{knowing, standing_in};
ghost use Rattle.server_flushes.specs.declared.standing.Standing.TheVariants.{Next};

use cal_base::{ClientId, Ino};
use image::Image;
use server_desk::Desk;
use server_draft::Draft;
use token_kind::{Class, Flush, Hold};

/// How a flush stands to what is on the disk.
#[derive(Drop)]
pub enum Standing {
    /// It is on the disk already.
    Lasts,
    /// It is the next one of its client, and may be committed.
    Next,
    /// It is neither.
    PassedOver,
}

/// How a flush stands to what is on the disk.
pub fn standing_of(draft: &Draft, client: ClientId, flush: &Flush) -> Standing
    requires client { client.0 < limits.clients }
    requires flush { IsFlush flush.now }
    ensures standing { result ≡ standing_in (knowing draft.now) client flush.now }
    ensures volume { IsVolume draft.now.image }
    ensures table { result ≡ Next → IsTable draft.now.desk.collecting.table }
{
    let last = draft.image.slot(client).flush;
    if flush.number <= last {
        Standing::Lasts
    } else if flush.number - last == 1 && may_commit(&draft.desk, &draft.image, client, flush) {
        Standing::Next
    } else {
        Standing::PassedOver
    }
}

/// Whether a flush that is next by its number may be committed: all reports are in, it is of a file of which its
/// client holds Data Write, and there is a free block for each of its pieces.
fn may_commit(desk: &Desk, image: &Image, client: ClientId, flush: &Flush) -> bool
    requires { IsFlush flush.now }
    ensures may { result ≡ uses_new_flush (with_desk desk.now image.now []) client flush.now }
    ensures table { IsTrue result → IsTable desk.now.collecting.table }
{
    desk.missing().is_none()
        && is_file(image, flush.ino)
        && is_writing(desk, client, flush.ino)
        && flush.pieces.len() <= image.free() as usize
}

/// Whether an inode is a file.
fn is_file(image: &Image, ino: Ino) -> bool
    requires { ino.0 < limits.inodes }
    ensures { result ≡ is_file_kind (inode_at image.now.inodes ino.0).kind }
{
    image.is_file(ino)
}

/// Whether a client may write a file's bytes.
fn is_writing(desk: &Desk, client: ClientId, ino: Ino) -> bool
    ensures writing { result ≡ nat_eq (hold_number (held_of desk.now.collecting.table client ino Data)) 2 }
    ensures table { IsTable desk.now.collecting.table }
{
    desk.table().held(client, ino, Class::Data) == Hold::Write
}
