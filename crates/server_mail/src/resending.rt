ghost use Rattle.std.specs.Prelude.{◌≡◌, ◌<◌, ◌++◌, OnOk};
ghost use Rattle.cal_base.specs.Limits.{clients};
ghost use Rattle.cal_base.specs.declared.identity.ClientId.{ClientId};
ghost use Rattle.cal_base.specs.declared.identity.ServerId.{ServerId};
ghost use Rattle.cal_base.specs.declared.identity.View.{View};
ghost use Rattle.client_sessions.specs.Mail.{AreBetween, session_at};
ghost use Rattle.server_mail.specs.Step.{AllGoOut, after_tick_to, packets_to, resent};

use crate::hearing::is_purged;
use cal_base::{CLIENTS, ClientId, Oom};
use client_sessions::ClientSessions;
use image::Image;

/// Sends the oldest message of each session again that isn't acknowledged, but none to a client whose purge is
/// marked in the volume.
pub fn resend_all(mail: &mut ClientSessions, image: &Image) -> Result<(), Oom>
    ensures sessions { OnOk result (mail.new.sessions ≡ mail.old.sessions) }
    ensures sent { OnOk result ((server : ServerId) (view : View) (client : ClientId) → AreBetween server view mail.old → client.0 < clients
        → packets_to client mail.new ≡ packets_to client mail.old ++ resent image.now mail.old client) }
    ensures between { OnOk result ((server : ServerId) (view : View) → AreBetween server view mail.old → AreBetween server view mail.new) }
    ensures out { OnOk result ((server : ServerId) (view : View) → AreBetween server view mail.old → AllGoOut server view mail.old → AllGoOut server view mail.new) }
{
    for number in 0..CLIENTS {
        resend_to(mail, image, ClientId(number))?;
    }
    Ok(())
}

/// Sends the oldest message to a client again that isn't acknowledged, unless the client's purge is marked.
fn resend_to(mail: &mut ClientSessions, image: &Image, client: ClientId) -> Result<(), Oom>
    requires { client.0 < clients }
    ensures { OnOk result (mail.new ≡ after_tick_to image.now mail.old client) }
{
    if !is_purged(image, client) {
        mail.resend(client)?;
    }
    Ok(())
}
