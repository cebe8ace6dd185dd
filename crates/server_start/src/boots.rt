ghost use Rattle.std.specs.Prelude.{◌≡◌, ◌≤◌, ◌+◌, ◌-◌, [], length, true, Err, IfOk, vec_capacity, vec_len};
ghost use Rattle.client_sessions.specs.Mail.{first_mail};
ghost use Rattle.journal.specs.Replay.{replay_length};
ghost use Rattle.server_start.specs.Asks.{mail_asking};
ghost use Rattle.server_start.specs.Formats.{new_desk};
ghost use Rattle.cal_base.specs.Limits as limits;
ghost use Rattle.cluster_law.specs.Noted.{DiskAt};
ghost use Rattle.server_start.specs.Boots.{BootEnds, HasBooted, IsAsItWas};
ghost use Rattle.server_start.specs.Disks.{IsAt, StandsSo};
ghost use Rattle.server_start.specs.declared.stops.StepError.TheVariants.{OutOfMemory};

use crate::asks::{Asks, ask_clients};
use crate::listing::list_present;
use crate::opening::{Opened, REPLAY_LENGTH, open_volume};
use crate::started::Started;
use crate::stops::StepError;
use cal_base::{Items, Oom, ServerId, View};
use cluster_law::{SectorWrite, ServerOutput};
use image::Image;
use server_desk::Desk;
use shared_disk::{PortDisk, Stop};
use std::alloc::Global;

/// Boots a server for a view, on a disk that has a volume: takes the fence, replays the journal, up to the stop if
/// there is one, mounts the volume, lists the clients whose purge isn't marked, and asks the first of them, as many as
/// the window lets, 1 to 8. All memory is taken before the fence; after want of memory the disk is as it was, but for
/// its room. A halt has its cause as the law of the cluster asks of a boot: it is fenced where a higher view has fenced
/// the disk, it fails where the count of faults rose, it stops at its stop, and it finds damage only where the sectors,
/// replayed, spell no volume. Of a disk that doesn't tell its sectors nothing more is said.
pub fn boot<D: PortDisk>(
    alloc: Global,
    disk: &mut D,
    id: ServerId,
    view: View,
    window: u8,
    stop: Option<Stop>,
) -> Result<(Started, ServerOutput), StepError>
    ensures begins { IfOk result (λ made. HasBooted id view made.0) }
    ensures ends { (before : DiskAt) → IsAt (D.means disk.old) (D.fault_count disk.old) before → length before.sectors ≡ limits.sectors
        → StandsSo (D.means disk.new) (D.fault_count disk.new) (BootEnds id view window stop before result) }
    ensures oom { result ≡ Err OutOfMemory → IsAsItWas (D.means disk.old) (D.fault_count disk.old) (D.means disk.new) (D.fault_count disk.new) }
{
    let Room {
        mut image,
        mut desk,
        asks,
        list,
    } = take_room(alloc, id, view, window)?;
    disk.reserve(REPLAY_LENGTH)?;
    let Opened { port, writes } = match open_volume(alloc, &mut image, list, disk, view, stop) {
        Ok(opened) => opened,
        Err(halted) => return Err(StepError::Halted(halted)),
    };
    list_present(&mut desk, &image);
    ask_clients(&mut desk);
    let mut mail = asks.of_asked(&desk);
    let sent = mail.take_sent();
    Ok((
        Started {
            port,
            desk,
            image,
            mail,
        },
        ServerOutput {
            sent,
            writes,
            entries: Items::new(alloc),
            head: None,
        },
    ))
}

/// What a server needs of memory that boots.
#[derive(Drop)]
struct Room {
    image: Image,
    desk: Desk,
    asks: Asks,
    list: Vec<SectorWrite>,
}

/// Takes all memory of a boot.
fn take_room(alloc: Global, id: ServerId, view: View, window: u8) -> Result<Room, Oom>
    ensures desk { IfOk result (λ room. room.desk ≡ new_desk window) }
    ensures asking { IfOk result (λ room. room.asks.asking ≡ mail_asking id view (λ client. true)) }
    ensures fresh { IfOk result (λ room. room.asks.fresh ≡ first_mail id view) }
    ensures empty { IfOk result (λ room. room.list.items ≡ []) }
    ensures space { IfOk result (λ room. replay_length ≤ vec_capacity room.list - vec_len room.list) }
{
    Ok(Room {
        image: Image::room(alloc)?,
        desk: Desk::new(alloc, window)?,
        asks: Asks::new(alloc, id, view)?,
        list: Vec::with_capacity(alloc, REPLAY_LENGTH)?,
    })
}
