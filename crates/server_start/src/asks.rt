ghost use Rattle.std.specs.Prelude.{◌≡◌, ◌<◌, ℕ, None, List, IfOk, true, if◌then◌else◌};
ghost use Rattle.cal_base.specs.Limits as limits;
ghost use Rattle.cal_base.specs.declared.identity.ServerId.{ServerId};
ghost use Rattle.cal_base.specs.declared.identity.View.{View};
ghost use Rattle.client_sessions.specs.Mail.{after_replacing, first_mail, session_at, with_session};
ghost use Rattle.rebuild.specs.Collecting.{next_of};
ghost use Rattle.volume.specs.Volume.{Volume};
ghost use Rattle.server_start.specs.Asks.{mail_asking};
ghost use Rattle.server_start.specs.Boots.{was_asked};
ghost use Rattle.server_start.specs.Turns.{IsAsking};

use cal_base::{CLIENTS, ClientId, Oom, ServerId, View};
use client_sessions::ClientSessions;
use message::Message;
use rebuild::Reporting;
use server_desk::Desk;
use std::alloc::Global;

/// The sessions of a view as it begins: those in which all clients are asked for their reports, and new ones for
/// clients that are not asked yet.
#[derive(Drop)]
pub(crate) struct Asks {
    pub(crate) asking: ClientSessions,
    pub(crate) fresh: ClientSessions,
}

impl Asks {
    /// Asks all 16 clients.
    pub(crate) fn new(alloc: Global, id: ServerId, view: View) -> Result<Asks, Oom>
        ensures asking { IfOk result (λ asks. asks.asking ≡ mail_asking id view (λ client. true)) }
        ensures fresh { IfOk result (λ asks. asks.fresh ≡ first_mail id view) }
    {
        let mut asking = ClientSessions::new(alloc, id, view)?;
        for number in 0..CLIENTS {
            asking.send(ClientId(number), &Message::Ask)?;
        }
        let fresh = ClientSessions::new(alloc, id, view)?;
        Ok(Asks { asking, fresh })
    }

    /// The sessions in which those clients are asked whom the desk has asked, and the others are not.
    pub(crate) fn of_asked(self, desk: &Desk) -> ClientSessions
        ensures { (id : ServerId) (view : View) → self.asking ≡ mail_asking id view (λ client. true) → self.fresh ≡ first_mail id view → result ≡ mail_asking id view (was_asked desk.now) }
    {
        let Asks {
            mut asking,
            mut fresh,
        } = self;
        for number in 0..CLIENTS {
            take_back(desk, &mut asking, &mut fresh, ClientId(number));
        }
        asking
    }
}

/// Takes the Ask back of a client that the desk has not asked.
fn take_back(desk: &Desk, asking: &mut ClientSessions, fresh: &mut ClientSessions, client: ClientId)
    requires { client.0 < limits.clients }
    ensures asking { asking.new ≡ (if was_asked desk.now client then asking.old else after_replacing asking.old client (session_at fresh.old client)) }
    ensures fresh { fresh.new ≡ (if was_asked desk.now client then fresh.old else with_session fresh.old client (session_at asking.old client)) }
{
    if !is_asked(desk, client) {
        asking.replace(client, fresh);
    }
}

/// Whether a client was asked, and has not reported all.
fn is_asked(desk: &Desk, client: ClientId) -> bool
    ensures { result ≡ was_asked desk.now client }
{
    matches!(desk.standing(client), Reporting::Asked(_))
}

/// Asks clients for their reports, as many as the window lets.
pub(crate) fn ask_clients(desk: &mut Desk)
    ensures asked { next_of desk.new.collecting ≡ None }
    ensures requests { desk.new.requests ≡ desk.old.requests }
    ensures asks { (view window : ℕ) (own : List (List ℕ)) (volume : Volume) → IsAsking view window own desk.old volume → IsAsking view window own desk.new volume }
{
    while let Some(_) = desk.ask_next() {}
}
