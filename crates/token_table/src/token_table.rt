ghost use Rattle.std.specs.Prelude.{◌≡◌, ◌<◌, ◌≤◌, ◌++◌, [], ℕ, false, length, min, OnOk, OnErr, IfOk, IfSome, IsNone, IsSome, IsTrue, ◌↔◌, All, Contains, slice_get, true};
ghost use Rattle.std.specs.List.{filter_map};
ghost use Rattle.token_kind.specs.Hold.{conflict, lesser_of};
ghost use Rattle.token_kind.specs.declared.hold.Hold.TheVariants.{Write};
ghost use Rattle.token_kind.specs.declared.«class».Class.TheVariants.{Data, Open};
ghost use Rattle.cal_base.specs.declared.identity.ClientId.{ClientId};
ghost use Rattle.cal_base.specs.declared.identity.Ino.{Ino};
ghost use Rattle.token_table.specs.Table.{held_of, IsGrantable, is_held, same_client, IsTable, IsToken, is_data_write};
ghost use Rattle.token_table.specs.Changes.{Sets, Drops};
ghost use Rattle.token_table.specs.Series.{Same, with_holds, put_last};
ghost use Rattle.token_table.specs.Blockers.{blocker_of, blockers_of, toucher_of, touchers_of, clients_below, asked_for, IsOpened};

use crate::gather::put_item;
use crate::hold_map::HoldMap;
use crate::is_held::is_held;
use cal_base::{CLIENTS, ClientId, INODES, Ino, Items, Oom};
use std::alloc::Global;
use std::marker::Model;
use token_kind::{Blocker, BlockerList, Class, Hold, Token, conflicts};

/// The table of a server: which client holds what. No two clients in it hold conflicting tokens.
#[derive(Drop)]
pub struct TokenTable {
    map: HoldMap,
}

impl Model for TokenTable {
    ghost use Rattle.token_table.specs.Table.{Table, IsTable};

    ghost Value = { Table };

    ghost view = { λ t. t.map };

    ghost invariant = { λ t. IsTable t.map };
}

impl TokenTable {
    /// A table of no holds.
    pub fn new(alloc: Global) -> Result<TokenTable, Oom>
        ensures { IfOk result (λ t. t ≡ record { holds = []; writes = [] }) }
    {
        Ok(TokenTable {
            map: HoldMap::new(alloc)?,
        })
    }

    /// What the client holds in the class on the inode.
    pub fn held(&self, c: ClientId, ino: Ino, class: Class) -> Hold
        ensures value { result ≡ held_of self.now c ino class }
        ensures table { IsTable self.now }
    {
        self.map.held(c, ino, class)
    }

    /// Sets the client's hold to that of the token. No other client may have a hold that conflicts with
    /// it, and Names and Open are never Write. A hold of Data that becomes Write is then the last granted.
    ///
    /// # Errors
    /// After want of memory the table is as it was.
    pub fn grant(&mut self, c: ClientId, t: Token) -> Result<(), Oom>
        requires apart { IsGrantable self.old c t }
        requires client { c.0 < CLIENTS }
        requires inode { t.ino.0 < INODES }
        requires mode { IsToken t }
        ensures ok { OnOk result (Sets self.old self.new c t.ino t.class t.hold) }
        ensures err { OnErr result (self.new ≡ self.old) }
    {
        self.map.set(c, t.ino, t.class, t.hold)?;
        Ok(())
    }

    /// Sets holds of the client, one after the other. No other client may have a hold that conflicts with
    /// one of them. The client's Data Write holds are then the last granted: those that it had, in their
    /// order, and then the others in the order of the tokens.
    ///
    /// # Errors
    /// After want of memory the table is as it was.
    pub fn grant_all(&mut self, c: ClientId, tokens: &[Token]) -> Result<(), Oom>
        requires apart { All (IsGrantable self.old c) tokens.now }
        requires client { c.0 < CLIENTS }
        requires inodes { All (λ token. token.ino.0 < INODES) tokens.now }
        requires modes { All IsToken tokens.now }
        ensures ok { OnOk result (Same self.new (with_holds (put_last self.old c) c tokens.now)) }
        ensures err { OnErr result (self.new ≡ self.old) }
    {
        self.map.set_all(c, tokens)?;
        Ok(())
    }

    /// Grants what the client needs, one token after the other. No other client may have a hold that
    /// conflicts with one of them. The Data Write holds that the client has keep their places among those
    /// granted; what becomes one comes last, in the order of the tokens.
    ///
    /// # Errors
    /// After want of memory the table is as it was.
    pub fn grant_needs(&mut self, c: ClientId, tokens: &[Token]) -> Result<(), Oom>
        requires apart { All (IsGrantable self.old c) tokens.now }
        requires client { c.0 < CLIENTS }
        requires inodes { All (λ token. token.ino.0 < INODES) tokens.now }
        requires modes { All IsToken tokens.now }
        ensures ok { OnOk result (Same self.new (with_holds self.old c tokens.now)) }
        ensures err { OnErr result (self.new ≡ self.old) }
    {
        self.map.set_needs(c, tokens)?;
        Ok(())
    }

    /// Whether no other client has a hold that conflicts with the token. It takes no memory.
    pub fn is_grantable(&self, c: ClientId, t: Token) -> bool
        ensures { IsTrue result ↔ IsGrantable self.now c t }
    {
        self.map.is_free(c, t)
    }

    /// Lowers the client's hold to the lesser of what it is and `to`.
    pub fn lower(&mut self, c: ClientId, ino: Ino, class: Class, to: Hold)
        ensures { Sets self.old self.new c ino class (lesser_of (held_of self.old c ino class) to) }
    {
        self.map.lower(c, ino, class, to);
    }

    /// Drops all that the client holds.
    pub fn drop_client(&mut self, c: ClientId)
        ensures { Drops self.old self.new c }
    {
        self.map.drop_client(c);
    }

    /// The holds of other clients that conflict with what the client needs: by the needs in their
    /// order, then by clients in order. Beside a need of Read its holder may keep Read, beside one of
    /// Write nothing. Where there is none, all that is needed may be granted.
    pub fn blockers(&self, c: ClientId, needs: &[Token]) -> Result<BlockerList, Oom>
        ensures blockers { IfOk result (λ blockers. blockers ≡ blockers_of self.now c needs.now) }
        ensures grantable { IfOk result (λ blockers. blockers ≡ [] → All (IsGrantable self.now c) needs.now) }
    {
        let mut blockers = self.map.list();
        for need in needs {
            self.put_blockers(c, *need, &mut blockers)?;
        }
        Ok(blockers)
    }

    /// All holds in the touched classes, the caller's own too: by the touches in their order, then by
    /// clients in order. Their holders may keep nothing.
    pub fn touchers(&self, touches: &[(Ino, Class)]) -> Result<BlockerList, Oom>
        ensures { IfOk result (λ blockers. blockers ≡ touchers_of self.now touches.now) }
    {
        let mut blockers = self.map.list();
        for touch in touches {
            self.put_touchers(*touch, &mut blockers)?;
        }
        Ok(blockers)
    }

    /// The Data Write hold that was granted first, or none where no Data Write hold stands. A hold
    /// counts as granted when it became Write, so one that was lowered and raised comes last.
    pub fn first_write(&self) -> Option<(ClientId, Ino)>
        ensures first { result ≡ slice_get self.now.writes 0 }
        ensures holder { IfSome result (λ w. held_of self.now w.0 w.1 Data ≡ Write) }
        ensures none { IsNone result → (c : ClientId) (ino : Ino) → is_data_write Data (held_of self.now c ino Data) ≡ false }
    {
        self.map.first_write()
    }

    /// The count of Data Write holds, at most 512.
    pub fn writes(&self) -> u16
        ensures count { result ≡ length self.now.writes }
        ensures limit { result ≤ INODES }
    {
        self.map.writes() as u16
    }

    /// The inodes of files that some client has open, each once for each such client: those for which
    /// `is_opened` answers yes, and no others.
    pub fn opened(&self) -> Result<Items<Ino>, Oom>
        ensures members { IfOk result (λ inos. (ino : Ino) → Contains inos ino ↔ IsOpened self.now ino) }
    {
        let inos = self.map.opened()?;
        Ok(inos)
    }

    /// Whether some client has the file open. It takes no memory.
    pub fn is_opened(&self, ino: Ino) -> bool
        ensures { IsTrue result ↔ IsOpened self.now ino }
    {
        self.map.is_opened(ino)
    }

    fn put_blockers(&self, c: ClientId, need: Token, out: &mut BlockerList) -> Result<(), Oom>
        ensures { OnOk result (out.new ≡ out.old ++ filter_map (blocker_of self.now c need) (clients_below CLIENTS)) }
    {
        for number in 0..CLIENTS {
            put_item(out, self.blocker(c, need, ClientId(number)))?;
        }
        Ok(())
    }

    fn blocker(&self, c: ClientId, need: Token, holder: ClientId) -> Option<Blocker>
        ensures { result ≡ blocker_of self.now c need holder }
    {
        if c != holder && conflicts(need.hold, self.held(holder, need.ino, need.class)) {
            Some(Blocker {
                client: holder,
                ino: need.ino,
                class: need.class,
                asked: asked_for(need.hold),
            })
        } else {
            None
        }
    }

    fn put_touchers(&self, touch: (Ino, Class), out: &mut BlockerList) -> Result<(), Oom>
        ensures { OnOk result (out.new ≡ out.old ++ filter_map (toucher_of self.now touch) (clients_below CLIENTS)) }
    {
        for number in 0..CLIENTS {
            put_item(out, self.toucher(touch, ClientId(number)))?;
        }
        Ok(())
    }

    fn toucher(&self, touch: (Ino, Class), holder: ClientId) -> Option<Blocker>
        ensures { result ≡ toucher_of self.now touch holder }
    {
        let (ino, class) = touch;
        if is_held(self.held(holder, ino, class)) {
            Some(Blocker {
                client: holder,
                ino,
                class,
                asked: Hold::None,
            })
        } else {
            None
        }
    }
}

/// What the holder in the way of such a need may keep.
fn asked_for(need: Hold) -> Hold
    ensures { result ≡ asked_for need }
{
    match need {
        Hold::Read => Hold::Read,
        Hold::None | Hold::Write => Hold::None,
    }
}
