ghost use Rattle.std.specs.Prelude.{◌≡◌, ◌<◌, ◌≤◌, ◌+◌, [], ◌∷◌, ◌++◌, if◌then◌else◌, IsOk, IsTrue, ◌↔◌, ℕ, IfOk, OnOk, OnErr, All, Contains, slice_get, true, false, None, filter, not, length, vec_len, vec_capacity};
ghost use Rattle.std.specs.Map.{lookup};
ghost use Rattle.token_kind.specs.Hold.{lesser_of};
ghost use Rattle.token_kind.specs.declared.hold.Hold.TheVariants.{None as Nothing};
ghost use Rattle.token_table.specs.Table.{held_of, hold_at, is_held, is_data_write, same_key, same_client, same_write};
ghost use Rattle.token_table.specs.Blockers.{IsOpened, opened_by, blocks, has_open};
ghost use Rattle.token_kind.specs.declared.«class».Class.TheVariants.{Open};
ghost use Rattle.cal_base.specs.declared.identity.ClientId.{ClientId};
ghost use Rattle.cal_base.specs.declared.identity.Ino.{Ino};
ghost use Rattle.token_table.specs.Changes.{Sets, Drops, Puts, without, reordered};
ghost use Rattle.token_table.specs.Series.{Same, with_holds, put_last, table_of};
ghost use Rattle.indexmap.specs.IndexMap.{spare};

use crate::gather::put_item;
use crate::hold_key::HoldKey;
use crate::is_held::is_held;
use cal_base::{CLIENTS, ClientId, Ino, Items, Oom};
use indexmap::IndexMap;
use std::alloc::Global;
use std::marker::Model;
use token_kind::{Class, Hold, Token, conflicts};

/// What each client holds, under whose it is and of what, and the order in which the Data Write holds
/// became Write.
#[derive(Drop)]
pub struct HoldMap {
    holds: IndexMap<HoldKey, Hold>,
    writes: Vec<(ClientId, Ino)>,
}

impl Model for HoldMap {
    ghost use Rattle.token_table.specs.Table.{Table};

    ghost Value = { Table };

    ghost view = { λ t. record { holds = t.holds.entries; writes = t.writes.items } };
}

impl HoldMap {
    /// No holds, with room for some.
    pub fn new(alloc: Global) -> Result<HoldMap, Oom>
        ensures { IfOk result (λ t. t ≡ record { holds = []; writes = [] }) }
    {
        Ok(HoldMap {
            holds: IndexMap::with_capacity(alloc, 16)?,
            writes: Vec::new(alloc),
        })
    }

    /// What the client holds in the class on the inode.
    pub fn held(&self, c: ClientId, ino: Ino, class: Class) -> Hold
        ensures { result ≡ held_of self.now c ino class }
    {
        let key = HoldKey {
            client: c,
            ino,
            class,
        };
        hold_at(&self.holds, key)
    }

    /// Whether no client of the cluster has a hold that is in the way of what the client needs.
    pub fn is_free(&self, c: ClientId, need: Token) -> bool
        ensures { IsTrue result ↔ ((k : ℕ) → k < CLIENTS → blocks self.now c need (record { 0 = k }) ≡ false) }
    {
        for number in 0..CLIENTS {
            if self.blocks(c, need, ClientId(number)) {
                return false;
            }
        }
        true
    }

    fn blocks(&self, c: ClientId, need: Token, holder: ClientId) -> bool
        ensures { result ≡ blocks self.now c need holder }
    {
        c != holder && conflicts(need.hold, self.held(holder, need.ino, need.class))
    }

    /// An empty list, in the memory of the map.
    pub fn list<T: Drop>(&self) -> Items<T>
        ensures { result ≡ [] }
    {
        Items::new(*self.holds.allocator())
    }

    /// The Data Write hold that became Write first.
    pub fn first_write(&self) -> Option<(ClientId, Ino)>
        ensures { result ≡ slice_get self.now.writes 0 }
    {
        self.writes.first().copied()
    }

    /// The count of Data Write holds.
    pub fn writes(&self) -> usize
        ensures { result ≡ length self.now.writes }
    {
        self.writes.len()
    }

    /// Whether one of the cluster's clients has the file open.
    pub fn is_opened(&self, ino: Ino) -> bool
        ensures yes { IsTrue result → IsOpened self.now ino }
        ensures no { result ≡ false → (k : ℕ) → k < CLIENTS → has_open self.now ino (record { 0 = k }) ≡ false }
    {
        for number in 0..CLIENTS {
            if self.has_open(ino, ClientId(number)) {
                return true;
            }
        }
        false
    }

    fn has_open(&self, ino: Ino, holder: ClientId) -> bool
        ensures { result ≡ has_open self.now ino holder }
    {
        is_held(self.held(holder, ino, Class::Open))
    }

    /// The inodes of files that some client has open.
    pub fn opened(&self) -> Result<Items<Ino>, Oom>
        ensures sound { IfOk result (All (IsOpened self.now)) }
        ensures complete { IfOk result (λ inos. (c : ClientId) (ino : Ino) → is_held (held_of self.now c ino Open) ≡ true → Contains inos ino) }
    {
        let mut inos = self.list();
        for i in 0..self.holds.len() {
            let (key, hold) = self.holds.get_index(i).unwrap();
            put_item(&mut inos, opened_by(*key, *hold))?;
        }
        Ok(inos)
    }

    /// Sets a hold. After want of memory all is as it was.
    pub fn set(&mut self, c: ClientId, ino: Ino, class: Class, hold: Hold) -> Result<(), Oom>
        ensures ok { OnOk result (Sets self.old self.new c ino class hold) }
        ensures err { OnErr result (self.new ≡ self.old) }
    {
        let was = is_data_write(class, self.held(c, ino, class));
        let is = is_data_write(class, hold);
        self.writes.reserve(1)?;
        put(&mut self.holds, c, ino, class, hold)?;
        reorder(&mut self.writes, (c, ino), was, is);
        Ok(())
    }

    /// Sets holds of a client, one after the other; its Data Write holds are then the last that became
    /// Write. After want of memory all is as it was.
    pub fn set_all(&mut self, c: ClientId, tokens: &[Token]) -> Result<(), Oom>
        ensures ok { OnOk result (Same self.new (with_holds (put_last self.old c) c tokens.now)) }
        ensures err { OnErr result (self.new ≡ self.old) }
    {
        self.holds.reserve(tokens.len())?;
        self.writes = put_last(&self.writes, c, tokens.len())?;
        set_each(&mut self.holds, &mut self.writes, c, tokens);
        Ok(())
    }

    /// Sets holds of a client, one after the other; the Data Write holds that it has keep their places in
    /// the order of writes. After want of memory all is as it was.
    pub fn set_needs(&mut self, c: ClientId, tokens: &[Token]) -> Result<(), Oom>
        ensures ok { OnOk result (Same self.new (with_holds self.old c tokens.now)) }
        ensures err { OnErr result (self.new ≡ self.old) }
    {
        self.holds.reserve(tokens.len())?;
        self.writes.reserve(tokens.len())?;
        set_each(&mut self.holds, &mut self.writes, c, tokens);
        Ok(())
    }

    /// Lowers a hold to the lesser of what it is and another.
    pub fn lower(&mut self, c: ClientId, ino: Ino, class: Class, to: Hold)
        ensures { Sets self.old self.new c ino class (lesser_of (held_of self.old c ino class) to) }
    {
        let held = self.held(c, ino, class);
        let left = held.lesser(to);
        put_lower(
            &mut self.holds,
            HoldKey {
                client: c,
                ino,
                class,
            },
            left,
        );
        reorder(
            &mut self.writes,
            (c, ino),
            is_data_write(class, held),
            is_data_write(class, left),
        );
    }

    /// Drops all that a client holds.
    pub fn drop_client(&mut self, c: ClientId)
        ensures { Drops self.old self.new c }
    {
        drop_holds(&mut self.holds, c);
        drop_writes(&mut self.writes, c);
    }
}

fn opened_by(key: HoldKey, hold: Hold) -> Option<Ino>
    ensures { result ≡ opened_by (key, hold) }
{
    if matches!(key.class, Class::Open) && is_held(hold) {
        Some(key.ino)
    } else {
        None
    }
}

fn is_data_write(class: Class, hold: Hold) -> bool
    ensures { result ≡ is_data_write class hold }
{
    matches!((class, hold), (Class::Data, Hold::Write))
}

fn put(
    holds: &mut IndexMap<HoldKey, Hold>,
    c: ClientId,
    ino: Ino,
    class: Class,
    hold: Hold,
) -> Result<(), Oom>
    ensures ok { OnOk result (Puts holds.old.entries holds.new.entries (record { client = c; ino = ino; class = class }) hold) }
    ensures err { OnErr result (holds.new.entries ≡ holds.old.entries) }
    ensures succeeds { 0 < spare holds.old → IsOk result }
    ensures room { spare holds.old ≤ spare holds.new + 1 }
{
    let key = HoldKey {
        client: c,
        ino,
        class,
    };
    holds.insert(key, hold)?;
    Ok(())
}

/// The order of writes with those of a client last, and with room for more.
fn put_last(
    writes: &Vec<(ClientId, Ino)>,
    c: ClientId,
    more: usize,
) -> Result<Vec<(ClientId, Ino)>, Oom>
    ensures order { IfOk result (λ last. last.items ≡ filter (λ w. not (same_client c w.0)) writes.now.items ++ filter (λ w. same_client c w.0) writes.now.items) }
    ensures room { IfOk result (λ last. vec_len last + more ≤ vec_capacity last) }
{
    let mut last = Vec::new(*writes.allocator());
    put_others(&mut last, writes, c)?;
    put_own(&mut last, writes, c)?;
    last.reserve(more)?;
    Ok(last)
}

/// Puts the writes of other clients at the end.
fn put_others(
    last: &mut Vec<(ClientId, Ino)>,
    writes: &[(ClientId, Ino)],
    c: ClientId,
) -> Result<(), Oom>
    ensures { OnOk result (last.new.items ≡ last.old.items ++ filter (λ w. not (same_client c w.0)) writes.now) }
{
    for write in writes {
        put_if(last, *write, c != write.0)?;
    }
    Ok(())
}

/// Puts the writes of a client at the end.
fn put_own(
    last: &mut Vec<(ClientId, Ino)>,
    writes: &[(ClientId, Ino)],
    c: ClientId,
) -> Result<(), Oom>
    ensures { OnOk result (last.new.items ≡ last.old.items ++ filter (λ w. same_client c w.0) writes.now) }
{
    for write in writes {
        put_if(last, *write, c == write.0)?;
    }
    Ok(())
}

/// Puts a write at the end, if it is to be put there.
fn put_if(writes: &mut Vec<(ClientId, Ino)>, write: (ClientId, Ino), puts: bool) -> Result<(), Oom>
    ensures { OnOk result (writes.new.items ≡ writes.old.items ++ (if puts then write ∷ [] else [])) }
{
    if puts {
        writes.push(write)?;
    }
    Ok(())
}

/// Sets holds of a client, one after the other, in room that is there.
fn set_each(
    holds: &mut IndexMap<HoldKey, Hold>,
    writes: &mut Vec<(ClientId, Ino)>,
    c: ClientId,
    tokens: &[Token],
)
    requires holds { length tokens.now ≤ spare holds.old }
    requires writes { vec_len writes.old + length tokens.now ≤ vec_capacity writes.old }
    ensures { Same (table_of holds.new.entries writes.new.items) (with_holds (table_of holds.old.entries writes.old.items) c tokens.now) }
{
    for token in tokens {
        set_one(holds, writes, c, *token);
    }
}

/// Sets a hold of a client, in room that is there.
fn set_one(
    holds: &mut IndexMap<HoldKey, Hold>,
    writes: &mut Vec<(ClientId, Ino)>,
    c: ClientId,
    token: Token,
)
    requires holds { 0 < spare holds.old }
    requires writes { vec_len writes.old < vec_capacity writes.old }
    ensures sets { Sets (table_of holds.old.entries writes.old.items) (table_of holds.new.entries writes.new.items) c token.ino token.«class» token.hold }
    ensures room { spare holds.old ≤ spare holds.new + 1 }
    ensures length { vec_len writes.new ≤ vec_len writes.old + 1 }
    ensures capacity { vec_capacity writes.old ≤ vec_capacity writes.new }
{
    let key = HoldKey {
        client: c,
        ino: token.ino,
        class: token.class,
    };
    let was = is_data_write(token.class, hold_at(holds, key));
    let is = is_data_write(token.class, token.hold);
    put(holds, c, token.ino, token.class, token.hold).unwrap();
    reorder(writes, (c, token.ino), was, is);
}

/// What stands under a key.
fn hold_at(holds: &IndexMap<HoldKey, Hold>, key: HoldKey) -> Hold
    ensures { result ≡ hold_at holds.now.entries key }
{
    match holds.get(&key) {
        Some(hold) => *hold,
        None => Hold::None,
    }
}

/// Changes a hold in place, or takes it out where none is left.
fn put_lower(holds: &mut IndexMap<HoldKey, Hold>, key: HoldKey, left: Hold)
    requires { lookup (same_key key) holds.old.entries ≡ None → left ≡ Nothing }
    ensures { Puts holds.old.entries holds.new.entries key left }
{
    if left == Hold::None {
        holds.swap_remove(&key);
    } else if let Some(hold) = holds.get_mut(&key) {
        *hold = left;
    }
}

fn drop_holds(holds: &mut IndexMap<HoldKey, Hold>, c: ClientId)
    ensures { holds.new.entries ≡ filter (λ e. not (same_client c e.0.client)) holds.old.entries }
{
    holds.retain(
        |key: &HoldKey, hold: &mut Hold| -> bool
            ensures { (result ≡ not (same_client c key.now.client)) × (hold.new ≡ hold.old) }
        { key.client != c },
    );
}

fn drop_writes(writes: &mut Vec<(ClientId, Ino)>, c: ClientId)
    ensures { writes.new.items ≡ filter (λ w. not (same_client c w.0)) writes.old.items }
{
    writes.retain(
        |write: &(ClientId, Ino)| -> bool
            ensures { result ≡ not (same_client c write.now.0) }
        { c != write.0 },
    );
}

/// Keeps the order of writes, where a hold was a Data Write hold or not, and is one or not.
fn reorder(writes: &mut Vec<(ClientId, Ino)>, write: (ClientId, Ino), was: bool, is: bool)
    requires { was ≡ false → is ≡ true → vec_len writes.old < vec_capacity writes.old }
    ensures order { writes.new.items ≡ reordered writes.old.items write was is }
    ensures length { vec_len writes.new ≤ vec_len writes.old + 1 }
    ensures capacity { vec_capacity writes.old ≤ vec_capacity writes.new }
{
    match (was, is) {
        (true, false) => leave(writes, write),
        (false, true) => writes.push(write).unwrap(),
        (true, true) | (false, false) => {}
    }
}

fn leave(writes: &mut Vec<(ClientId, Ino)>, write: (ClientId, Ino))
    ensures order { writes.new.items ≡ without writes.old.items write }
    ensures length { vec_len writes.new ≤ vec_len writes.old }
    ensures capacity { vec_capacity writes.new ≡ vec_capacity writes.old }
{
    writes.retain(
        |other: &(ClientId, Ino)| -> bool
            ensures { result ≡ not (same_write write other.now) }
        { write != *other },
    );
}
