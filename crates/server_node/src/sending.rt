ghost use Rattle.std.specs.Prelude.{◌≡◌, ◌<◌, ℕ, All, IfOk, IfSome};
ghost use Rattle.cal_base.specs.Limits.{clients};
ghost use Rattle.cal_base.specs.declared.identity.ServerId.{ServerId};
ghost use Rattle.cal_base.specs.declared.identity.View.{View};
ghost use Rattle.client_sessions.specs.Mail.{AreBetween};
ghost use Rattle.server_draft.specs.Acts.{CanBeDone};
ghost use Rattle.server_mail.specs.Step.{AllGoOut, HasRoom};
ghost use Rattle.server_node.specs.Parts.{Sends};

use cal_base::{ClientId, Items, Oom};
use client_sessions::ClientSessions;
use server_draft::Act;
use server_mail::{acknowledge, send_acts};
use session::Packet;

/// Sends the messages of some acts, and then what is owed for the packet that came: gives the packets of the step, in
/// order.
pub(crate) fn send(
    mail: &mut ClientSessions,
    acts: &[Act],
    answers: Option<ClientId>,
) -> Result<Items<Packet>, Oom>
    requires acts { All CanBeDone acts.now }
    requires steps { HasRoom mail.old acts.now }
    requires answers { IfSome answers (λ client. client.0 < clients) }
    ensures { IfOk result (λ sent. (id : ServerId) (view : View) → AreBetween id view mail.old → AllGoOut id view mail.old → Sends id view mail.old acts.now answers sent mail.new) }
{
    send_acts(mail, acts)?;
    acknowledge(mail, answers)?;
    Ok(mail.take_sent())
}
