//! What the sessions of a view are as it begins, client by client.
ghost use Rattle.std.specs.Prelude.{◌≡◌, ◌<◌, ◌∷◌, [], Bool, filter, if◌then◌else◌};
ghost use Rattle.cal_base.specs.Limits.{clients};
ghost use Rattle.cal_base.specs.declared.identity.ClientId.{ClientId};
ghost use Rattle.cal_base.specs.declared.identity.ServerId.{ServerId};
ghost use Rattle.cal_base.specs.declared.identity.View.{View};
ghost use Rattle.client_sessions.specs.Mail.{AreBetween, is_to, session_at};
ghost use Rattle.server_start.specs.Asks.{ask_packet, asked_if, mail_asking};

/// The sessions in which some clients are asked are those of the server and its view. A client that is asked has made
/// its Ask alone, the one packet that goes to it; and to any other client no packet goes, and its session is new.
pub fn each_client_is_asked_in_its_session()
    ensures between { (id : ServerId) (view : View) (test : ClientId → Bool) → AreBetween id view (mail_asking id view test) }
    ensures session { (id : ServerId) (view : View) (test : ClientId → Bool) (client : ClientId) → client.0 < clients → session_at (mail_asking id view test) client ≡ asked_if id view (test client) client }
    ensures sent { (id : ServerId) (view : View) (test : ClientId → Bool) (client : ClientId) → client.0 < clients
        → filter (is_to client) (mail_asking id view test).sent ≡ (if test client then ask_packet id view client ∷ [] else []) }
{}
