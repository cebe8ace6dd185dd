//! What follows for those who count the messages of a step, ask what is acknowledged, or go by lanes.
ghost use Rattle.std.specs.Prelude.{◌≡◌, ◌≤◌, ℕ, List, Option, filter, length};
ghost use Rattle.cal_base.specs.declared.identity.ClientId.{ClientId};
ghost use Rattle.cal_base.specs.declared.identity.ServerId.{ServerId};
ghost use Rattle.cal_base.specs.declared.identity.View.{View};
ghost use Rattle.client_sessions.specs.Mail.{Mail};
ghost use Rattle.cluster_law.specs.Delivery.{has_number};
ghost use Rattle.cluster_law.specs.Lanes.{Down};
ghost use Rattle.cluster_law.specs.Sessions.{goes_on};
ghost use Rattle.session.specs.declared.packet.Packet.{Packet};
ghost use Rattle.server_draft.specs.Acts.{told_to};
ghost use Rattle.server_draft.specs.declared.act.Act.{Act};
ghost use Rattle.server_mail.specs.Step.{AllGoOut, bodies_to, is_owed, owed, packets_to, part_of};

/// As many messages are made for a client as are counted, and no more than there are acts.
pub fn no_client_is_told_more_than_is_done()
    ensures count { (view : ℕ) (client : ClientId) (acts : List Act) → length (bodies_to view client acts) ≡ told_to client.0 acts }
    ensures few { (client : ℕ) (acts : List Act) → told_to client acts ≤ length acts }
{}

/// A client is owed an acknowledgement exactly where its session hears a packet with a number.
pub fn what_is_heard_is_owed()
    ensures { (client : ClientId) (packet : Packet) (from : Option ClientId) → is_owed client (owed packet from) ≡ has_number (part_of client packet from) }
{}

/// Of packets that go out, those on the lane of a client are those to the client.
pub fn a_lane_has_what_goes_to_its_client()
    ensures { (server : ServerId) (view : View) (client : ClientId) (m : Mail) → AllGoOut server view m → filter (goes_on (record { client = client.0; view = view.0; way = Down })) m.sent ≡ packets_to client m }
{}
