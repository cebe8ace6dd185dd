ghost use Rattle.std.specs.Prelude.{◌≡◌, ◌+◌, ◌-◌, ◌^◌, ◌<◌, ◌≤◌, ◌↔◌, OnOk, OnErr, IsTrue};
ghost use Rattle.membership.specs.Membership.{formed, standing_of, HasCrashed, IsDeclared, answer_of_crash, answer_of_declare, with_standing};
ghost use Rattle.membership.specs.declared.standing.Standing.TheVariants.{Crashed, Gone};

use crate::not_so::NotSo;
use crate::standing::Standing;
use cal_base::{CLIENTS, ClientId, ServerId, View};
use std::marker::Model;

/// The clients of a cluster, the view that is open, and its server.
#[derive(Clone, Copy, Debug)]
pub struct Members {
    clients: u8,
    standings: [Standing; 16],
    view: View,
    server: ServerId,
}

impl Model for Members {
    ghost use Rattle.std.specs.Prelude.{◌≤◌};
    ghost use Rattle.cal_base.specs.Limits.{clients as most_clients};
    ghost use Rattle.membership.specs.Membership.{Membership};

    ghost Value = { Membership };

    ghost view = { λ m. record { clients = m.clients; standings = m.standings; view = m.view; server = m.server } };

    ghost invariant = { λ m. (m.clients ≤ most_clients) × (1 ≤ m.view.0) };

    ghost inverse = { λ v. record { clients = v.clients; standings = v.standings; view = v.view; server = v.server } };
}

impl Members {
    /// The members as the format of the volume leaves them: all clients run, and view 1 is open with
    /// server A.
    pub fn new(clients: u8) -> Members
        requires some { 1 ≤ clients }
        requires limit { clients ≤ CLIENTS }
        ensures { result ≡ formed clients }
    {
        Members {
            clients,
            standings: [Standing::Runs; 16],
            view: View(1),
            server: ServerId::A,
        }
    }

    /// Notes that a client crashed.
    ///
    /// # Errors
    /// `NoSuch` where there is no such client, `Dead` where it crashed before; never `Alive`. All is
    /// then as before.
    pub fn crash(&mut self, c: ClientId) -> Result<(), NotSo>
        ensures answer { result ≡ answer_of_crash (standing_of self.old c) }
        ensures ok { OnOk result (self.new ≡ with_standing self.old c Crashed) }
        ensures err { OnErr result (self.new ≡ self.old) }
    {
        match self.standing(c) {
            None => Err(NotSo::NoSuch),
            Some(Standing::Runs) => {
                self.standings[c.0 as usize] = Standing::Crashed;
                Ok(())
            }
            Some(Standing::Crashed) | Some(Standing::Gone) => Err(NotSo::Dead),
        }
    }

    /// Declares a client gone, which only one that crashed can be, and once. Its unflushed writes and
    /// its descriptors may be purged from then on.
    ///
    /// # Errors
    /// `NoSuch` where there is no such client, `Dead` where it is declared already, `Alive` where it has
    /// not crashed. All is then as before.
    pub fn declare(&mut self, c: ClientId) -> Result<(), NotSo>
        ensures answer { result ≡ answer_of_declare (standing_of self.old c) }
        ensures ok { OnOk result (self.new ≡ with_standing self.old c Gone) }
        ensures err { OnErr result (self.new ≡ self.old) }
    {
        match self.standing(c) {
            None => Err(NotSo::NoSuch),
            Some(Standing::Gone) => Err(NotSo::Dead),
            Some(Standing::Runs) => Err(NotSo::Alive),
            Some(Standing::Crashed) => {
                self.standings[c.0 as usize] = Standing::Gone;
                Ok(())
            }
        }
    }

    /// Opens the next view with this server, and answers it.
    pub fn next_view(&mut self, s: ServerId) -> View
        requires { self.old.view.0 < 2 ^ 64 - 1 }
        ensures next { result.0 ≡ self.old.view.0 + 1 }
        ensures opened { self.new ≡ record self.old { view = result; server = s } }
    {
        self.view = View(self.view.0 + 1);
        self.server = s;
        self.view
    }

    /// Whether the client is declared gone.
    pub fn declared(&self, c: ClientId) -> bool
        ensures value { IsTrue result ↔ IsDeclared (standing_of self.now c) }
        ensures after_crash { IsTrue result → HasCrashed (standing_of self.now c) }
    {
        matches!(self.standing(c), Some(Standing::Gone))
    }

    /// Whether the client crashed, declared gone since or not.
    pub fn crashed(&self, c: ClientId) -> bool
        ensures { IsTrue result ↔ HasCrashed (standing_of self.now c) }
    {
        matches!(
            self.standing(c),
            Some(Standing::Crashed) | Some(Standing::Gone)
        )
    }

    /// Where the client stands, or none where there is no such client.
    pub fn standing(&self, c: ClientId) -> Option<Standing>
        ensures { result ≡ standing_of self.now c }
    {
        if c.0 < self.clients {
            Some(self.standings[c.0 as usize])
        } else {
            None
        }
    }

    /// The count of clients, 1 to 16; they are numbered from 0.
    pub fn clients(&self) -> u8
        ensures count { result ≡ self.now.clients }
        ensures limit { result ≤ CLIENTS }
    {
        self.clients
    }

    /// The view that is open.
    pub fn view(&self) -> View
        ensures open { result ≡ self.now.view }
        ensures first { 1 ≤ result.0 }
    {
        self.view
    }

    /// The server of the view that is open.
    pub fn server(&self) -> ServerId
        ensures { result ≡ self.now.server }
    {
        self.server
    }
}
