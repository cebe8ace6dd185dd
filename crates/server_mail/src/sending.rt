ghost use Rattle.std.specs.Prelude.{◌≡◌, ◌<◌, ◌+◌, ◌^◌, ◌++◌, ◌∷◌, [], All, OnOk};
ghost use Rattle.cal_base.specs.Limits.{clients};
ghost use Rattle.cal_base.specs.declared.identity.ClientId.{ClientId};
ghost use Rattle.cal_base.specs.declared.identity.ServerId.{ServerId};
ghost use Rattle.cal_base.specs.declared.identity.View.{View};
ghost use Rattle.client_sessions.specs.Mail.{AreBetween, session_at};
ghost use Rattle.cluster_law.specs.Ends.{making};
ghost use Rattle.lane_facts.specs.Speaking.{packets_with};
ghost use Rattle.server_draft.specs.Acts.{CanBeDone, told_to};
ghost use Rattle.server_mail.specs.Step.{AllGoOut, HasRoom, after_act, bodies_to, packets_to};

use cal_base::Oom;
use client_sessions::{ClientSessions, sessions_stay_between};
use server_draft::Act;

/// Sends the messages of some acts, in order, each in the session of its client: its packet goes out, unless eight
/// messages to that client are unacknowledged. Then it waits.
pub fn send_acts(mail: &mut ClientSessions, acts: &[Act]) -> Result<(), Oom>
    requires acts { All CanBeDone acts.now }
    requires steps { HasRoom mail.old acts.now }
    ensures session { OnOk result ((server : ServerId) (view : View) (client : ClientId) → AreBetween server view mail.old → client.0 < clients
        → session_at mail.new client ≡ making (session_at mail.old client) (bodies_to view.0 client acts.now)) }
    ensures steps { OnOk result ((server : ServerId) (view : View) (client : ClientId) → AreBetween server view mail.old → client.0 < clients
        → (session_at mail.new client).steps ≡ (session_at mail.old client).steps + told_to client.0 acts.now) }
    ensures sent { OnOk result ((server : ServerId) (view : View) (client : ClientId) → AreBetween server view mail.old → client.0 < clients
        → packets_to client mail.new ≡ packets_to client mail.old ++ packets_with (session_at mail.old client) (bodies_to view.0 client acts.now)) }
    ensures between { OnOk result ((server : ServerId) (view : View) → AreBetween server view mail.old → AreBetween server view mail.new) }
    ensures out { OnOk result ((server : ServerId) (view : View) → AreBetween server view mail.old → AllGoOut server view mail.old → AllGoOut server view mail.new) }
{
    // this law tells that the sessions stay those of the server
    sessions_stay_between();
    for act in acts {
        send(mail, act)?;
    }
    Ok(())
}

/// Sends the message of an act, if it makes one.
fn send(mail: &mut ClientSessions, act: &Act) -> Result<(), Oom>
    requires act { CanBeDone act.now }
    requires steps { HasRoom mail.old (act.now ∷ []) }
    ensures { OnOk result (mail.new ≡ after_act mail.old act.now) }
{
    match act {
        Act::Tells { client, message } => {
            mail.send(*client, message)?;
            Ok(())
        }
        Act::Commits(_) => Ok(()),
        Act::Drops => Ok(()),
    }
}
