ghost use Rattle.std.specs.Prelude.{◌≡◌, ◌<◌, ◌↔◌, ℕ, List, Some};
ghost use Rattle.cal_base.specs.Limits.{clients};
ghost use Rattle.cal_base.specs.declared.identity.ClientId.{ClientId};
ghost use Rattle.cal_base.specs.declared.identity.ServerId.{ServerId};
ghost use Rattle.cal_base.specs.declared.identity.View.{View};
ghost use Rattle.session.specs.declared.packet.Packet.{Packet};
ghost use Rattle.client_sessions.specs.Mail.{AreBetween, IsFrom, Mail, after_acknowledging, after_hearing, after_replacing, after_resending, after_sending, after_taking, first_mail, heard_in, session_at, with_session};

/// The sessions of a server in a view are its own, with each client in its place, and stay so in every call.
pub fn sessions_stay_between()
    ensures first { (server : ServerId) (view : View) → AreBetween server view (first_mail server view) }
    ensures hearing { (server : ServerId) (view : View) (m : Mail) (client : ClientId) (p : Packet) → AreBetween server view m → AreBetween server view (after_hearing m client p) }
    ensures sending { (server : ServerId) (view : View) (m : Mail) (client : ClientId) (body : List ℕ) → AreBetween server view m → AreBetween server view (after_sending m client body) }
    ensures resending { (server : ServerId) (view : View) (m : Mail) (client : ClientId) → AreBetween server view m → AreBetween server view (after_resending m client) }
    ensures acknowledging { (server : ServerId) (view : View) (m : Mail) (client : ClientId) → AreBetween server view m → AreBetween server view (after_acknowledging m client) }
    ensures replacing { (server : ServerId) (view : View) (m others : Mail) (client : ClientId) → AreBetween server view m → AreBetween server view others → AreBetween server view (after_replacing m client (session_at others client)) }
    ensures giving { (server : ServerId) (view : View) (m others : Mail) (client : ClientId) → AreBetween server view m → AreBetween server view others → AreBetween server view (with_session m client (session_at others client)) }
    ensures taking { (server : ServerId) (view : View) (m : Mail) → AreBetween server view m → AreBetween server view (after_taking m) }
{}

/// A packet is heard in a client's session exactly where it is from that client, for the server and of the view.
pub fn a_packet_is_heard_from_its_client()
    ensures { (server : ServerId) (view : View) (m : Mail) (client : ClientId) (p : Packet)
        → AreBetween server view m → client.0 < clients → ((heard_in m p ≡ Some client) ↔ IsFrom client server view p) }
{}
