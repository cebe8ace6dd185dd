ghost use Rattle.std.specs.Prelude.{◌≡◌, ◌<◌, ◌+◌, ◌^◌, ◌++◌, ◌∷◌, ◌&&◌, [], if◌then◌else◌, Some as Given, IfOk, OnOk, length};
ghost use Rattle.std.specs.Option.{option_to_list};
ghost use Rattle.session.specs.Session.{after_send, sent_packet};
ghost use Rattle.cluster_law.specs.ClientRules.{own_entry};
ghost use Rattle.cluster_law.specs.Ends.{making};
ghost use Rattle.cluster_law.specs.Lists.{is_empty};
ghost use Rattle.client_node.specs.Step.{answer_for, bare_if, entry_for, packets_with};

use cal_base::{Blob, ClientId, Items, Oom};
use client_state::{Finished, is_change};
use cluster_law::{Answer, ClientOutput};
use session::{Packet, Session};
use tree_law::{Call, Entry, Reply};

/// Hands bodies to a session, one after the other, and puts the packets that go out behind others.
#[tactic(auto, unfolding(lane_facts::specs::Speaking::packets_with))]
pub(crate) fn send_all(
    session: &mut Session,
    sent: &mut Items<Packet>,
    bodies: Vec<Blob>,
) -> Result<(), Oom>
    requires { session.old.steps + length bodies.items < 2 ^ 60 }
    ensures session { OnOk result (session.new ≡ making session.old bodies.items) }
    ensures sent { OnOk result (sent.new ≡ sent.old ++ packets_with session.old bodies.items) }
{
    for body in bodies {
        send_one(session, sent, body)?;
    }
    Ok(())
}

fn send_one(session: &mut Session, sent: &mut Items<Packet>, body: Blob) -> Result<(), Oom>
    requires { session.old.steps < 2 ^ 60 }
    ensures session { OnOk result (session.new ≡ after_send session.old body) }
    ensures sent { OnOk result (sent.new ≡ sent.old ++ option_to_list (sent_packet session.old body)) }
{
    match session.send(body.into_vec())? {
        None => Ok(()),
        Some(packet) => sent.push(packet),
    }
}

/// A packet that was heard is acknowledged by itself where nothing else goes out.
pub(crate) fn acknowledge(owes: bool, sent: &mut Items<Packet>, bare: Packet) -> Result<(), Oom>
    ensures { OnOk result (sent.new ≡ sent.old ++ bare_if owes sent.old bare) }
{
    if owes && sent.is_empty() {
        sent.push(bare)?;
    }
    Ok(())
}

/// What a step gives: the packets, the answer to the call that it finishes, and the entry of one that the
/// client answered by itself.
pub(crate) fn output(
    client: ClientId,
    number: u64,
    sent: Items<Packet>,
    finished: Option<Finished>,
) -> Result<ClientOutput, Oom>
    ensures sent { IfOk result (λ output. output.sent ≡ sent) }
    ensures answer { IfOk result (λ output. output.answer ≡ answer_for number finished) }
    ensures entry { IfOk result (λ output. option_to_list output.entry ≡ entry_for client number finished) }
{
    match finished {
        None => Ok(ClientOutput {
            sent,
            answer: None,
            entry: None,
        }),
        Some(Finished { call, reply }) => {
            let entry = own_entry(client, number, call, &reply)?;
            Ok(ClientOutput {
                sent,
                answer: Some(Answer { number, reply }),
                entry,
            })
        }
    }
}

/// The entry of a finished call, if it is the client's own: that of a change is its server's.
fn own_entry(client: ClientId, number: u64, call: Call, reply: &Reply) -> Result<Option<Entry>, Oom>
    ensures { IfOk result (λ entry. option_to_list entry ≡ own_entry client.0 number (Given call) (Given reply.now)) }
{
    if is_change(&call) {
        return Ok(None);
    }
    Ok(Some(Entry::Call {
        client,
        number,
        call,
        reply: reply.clone()?,
        new_ino: None,
    }))
}
