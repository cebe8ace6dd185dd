ghost use Rattle.std.specs.Prelude.{◌≡◌, ◌<◌, ◌^◌, IfOk};
ghost use Rattle.cal_base.specs.Limits.{clients};
ghost use Rattle.cal_base.specs.declared.identity.ClientId.{ClientId};
ghost use Rattle.client_sessions.specs.Mail.{session_at};
ghost use Rattle.cluster_law.specs.declared.node.ServerInput.TheVariants.{Packet as Comes};
ghost use Rattle.server_node.specs.Node.{IsNode, NodeValue};
ghost use Rattle.server_node.specs.Parts.{Hears};
ghost use Rattle.server_node.specs.Step.{coming_with};

use cal_base::{ClientId, Oom};
use client_sessions::ClientSessions;
use cluster_law::ServerInput;
use image::Image;
use server_mail::{FromClient, Heard, hear, resend_all, what_is_heard_is_owed};
use server_opening::Coming;
use session::Packet;
use std::alloc::Global;

/// What comes to a server in a step, and the client that is owed an acknowledgement for it.
#[derive(Drop)]
pub(crate) struct Came {
    pub(crate) coming: Coming,
    pub(crate) answers: Option<ClientId>,
}

/// Hears what comes: a packet in the session of its client; in a tick the oldest message of each session goes out
/// again that isn't acknowledged.
pub(crate) fn come(
    alloc: Global,
    mail: &mut ClientSessions,
    image: &Image,
    input: ServerInput,
) -> Result<Came, Oom>
    requires { (client : ClientId) → client.0 < clients → (session_at mail.old client).steps < 2 ^ 60 }
    ensures { IfOk result (λ came. (n : NodeValue) → IsNode n → n.mail ≡ mail.old → n.image ≡ image.now → Hears n input came mail.new) }
{
    match input {
        ServerInput::Packet(packet) => {
            let came = come_by(alloc, mail, image, &packet)?;
            Ok(came)
        }
        ServerInput::Tick => {
            resend_all(mail, image)?;
            Ok(Came {
                coming: Coming::Tick,
                answers: None,
            })
        }
    }
}

/// Hears a packet.
fn come_by(
    alloc: Global,
    mail: &mut ClientSessions,
    image: &Image,
    packet: &Packet,
) -> Result<Came, Oom>
    requires { (client : ClientId) → client.0 < clients → (session_at mail.old client).steps < 2 ^ 60 }
    ensures { IfOk result (λ came. (n : NodeValue) → IsNode n → n.mail ≡ mail.old → n.image ≡ image.now → Hears n (Comes packet.now) came mail.new) }
{
    // this law tells who is owed an acknowledgement
    what_is_heard_is_owed();
    let Heard { took, answers } = hear(alloc, mail, image, packet)?;
    Ok(Came {
        coming: coming_of(took),
        answers,
    })
}

/// What comes by a message, if there is one.
fn coming_of(took: Option<FromClient>) -> Coming
    ensures { result ≡ coming_with took }
{
    match took {
        None => Coming::Nothing,
        Some(FromClient { client, message }) => Coming::Message { client, message },
    }
}
