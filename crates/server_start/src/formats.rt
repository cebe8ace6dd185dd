ghost use Rattle.std.specs.Prelude.{◌≡◌, ◌≤◌, ◌+◌, length, IfOk, OnOk};
ghost use Rattle.cal_base.specs.Limits as limits;
ghost use Rattle.image.specs.EntryPlans.{TellsFresh};
ghost use Rattle.image.specs.Mount.{Told};
ghost use Rattle.client_sessions.specs.Mail.{first_mail};
ghost use Rattle.server_start.specs.Formats.{Formats, ServesFresh, new_desk};

use crate::started::Started;
use crate::stops::FormatError;
use cal_base::{CLIENTS, INODES, Oom, ServerId, View};
use client_sessions::ClientSessions;
use fence::{Port, PortHalt};
use image::{Image, mkfs};
use server_desk::Desk;
use shared_disk::PortDisk;
use std::alloc::Global;

/// How many writes a format makes: the slots, the inodes, and the gate, the map and the head.
const FORMAT_LENGTH: usize = CLIENTS as usize + INODES + 3;

/// Formats a disk for so many clients, 1 to 16, and serves view 1, in which nobody holds anything. The window, 1 to
/// 8, is how many clients are asked for reports at a time. All memory is taken before the fence; after want of memory
/// the disk is as it was, but for its room. It is `Fenced` exactly where the key is above 1, and `Failed` only where
/// the count of faults rose.
pub fn format_volume<D: PortDisk>(
    alloc: Global,
    disk: &mut D,
    id: ServerId,
    clients: u8,
    window: u8,
) -> Result<Started, FormatError>
    requires some { 1 ≤ clients }
    requires few { clients ≤ limits.clients }
    ensures serves { IfOk result (λ started. ServesFresh id clients window started) }
    ensures disk { Formats clients (D.means disk.old) (D.fault_count disk.old) result (D.means disk.new) (D.fault_count disk.new) }
    ensures stands { Told (D.means disk.old) (λ sectors. length sectors ≡ limits.sectors → OnOk result (TellsFresh (D.means disk.new) clients)) }
{
    let Room {
        mut image,
        desk,
        mail,
    } = take_room(alloc, id, window)?;
    disk.reserve(FORMAT_LENGTH)?;
    let mut port = match Port::take(disk, View(1)) {
        Ok(port) => port,
        Err(refusal) => return Err(FormatError::Halted(PortHalt::from(refusal))),
    };
    match mkfs(&mut image, &mut port, disk, clients) {
        Ok(()) => {}
        Err(halt) => return Err(FormatError::Halted(halt)),
    }
    Ok(Started {
        port,
        desk,
        image,
        mail,
    })
}

/// What a server needs of memory that formats a disk.
#[derive(Drop)]
struct Room {
    image: Image,
    desk: Desk,
    mail: ClientSessions,
}

/// Takes all memory of a format.
fn take_room(alloc: Global, id: ServerId, window: u8) -> Result<Room, Oom>
    ensures desk { IfOk result (λ room. room.desk ≡ new_desk window) }
    ensures mail { IfOk result (λ room. room.mail ≡ first_mail id (record { 0 = 1 })) }
{
    Ok(Room {
        image: Image::room(alloc)?,
        desk: Desk::new(alloc, window)?,
        mail: ClientSessions::new(alloc, id, View(1))?,
    })
}
