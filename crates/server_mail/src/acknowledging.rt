ghost use Rattle.std.specs.Prelude.{◌≡◌, ◌<◌, ◌++◌, Some as Given, IfSome, OnOk};
ghost use Rattle.cal_base.specs.Limits.{clients};
ghost use Rattle.cal_base.specs.declared.identity.ClientId.{ClientId};
ghost use Rattle.cal_base.specs.declared.identity.ServerId.{ServerId};
ghost use Rattle.cal_base.specs.declared.identity.View.{View};
ghost use Rattle.client_sessions.specs.Mail.{AreBetween};
ghost use Rattle.server_mail.specs.Step.{AllGoOut, after_answering, bare_to, packets_to};

use cal_base::{ClientId, Oom};
use client_sessions::ClientSessions;

/// Acknowledges what a client sent by a packet that carries no message, where the client is owed that and no packet
/// goes to it.
pub fn acknowledge(mail: &mut ClientSessions, answers: Option<ClientId>) -> Result<(), Oom>
    requires { IfSome answers (λ client. client.0 < clients) }
    ensures state { OnOk result (mail.new ≡ after_answering mail.old answers) }
    ensures sessions { OnOk result (mail.new.sessions ≡ mail.old.sessions) }
    ensures sent { OnOk result ((server : ServerId) (view : View) (client : ClientId) → AreBetween server view mail.old → client.0 < clients
        → packets_to client mail.new ≡ packets_to client mail.old ++ bare_to client mail.old answers) }
    ensures between { OnOk result ((server : ServerId) (view : View) → AreBetween server view mail.old → AreBetween server view mail.new) }
    ensures out { OnOk result ((server : ServerId) (view : View) → AreBetween server view mail.old → AllGoOut server view mail.old → AllGoOut server view mail.new) }
{
    match answers {
        None => Ok(()),
        Some(client) => {
            acknowledge_to(mail, client)?;
            Ok(())
        }
    }
}

/// Acknowledges to a client, where no packet goes to it.
fn acknowledge_to(mail: &mut ClientSessions, client: ClientId) -> Result<(), Oom>
    requires { client.0 < clients }
    ensures { OnOk result (mail.new ≡ after_answering mail.old (Given client)) }
{
    if !mail.has_sent(client) {
        mail.acknowledge(client)?;
    }
    Ok(())
}
