use client_sessions::ClientSessions;
use fence::Port;
use image::Image;
use server_desk::Desk;

/// A server as it begins to serve a view.
#[derive(Drop)]
pub struct Started {
    /// The right to write to the disk in this view.
    pub port: Port,
    /// Reports, holds and requests.
    pub desk: Desk,
    /// The volume.
    pub image: Image,
    /// The sessions with the clients.
    pub mail: ClientSessions,
}
