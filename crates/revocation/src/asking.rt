ghost use Rattle.std.specs.Prelude.{◌≡◌, Some, OnOk, IfOk};
ghost use Rattle.std.specs.List.{filter_map};
ghost use Rattle.token_table.specs.Table.{key_of};
ghost use Rattle.token_table.specs.declared.hold_key.HoldKey.{HoldKey};
ghost use Rattle.indexmap.specs.IndexSet.{insert_key};
ghost use Rattle.revocation.specs.Waiting.{asked_at};
ghost use Rattle.revocation.specs.Revokes.{asked_with, asked_after, now_at, items_of, item_of, revoke_of, revokes_of, owners, owner_of, same_owner};

use crate::asked::{AskedMap, asked_at, is_open, key_of, lower_asked, put};
use crate::owner::Owner;
use cal_base::{ClientId, Items, Oom};
use indexmap::{IndexMap, IndexSet};
use std::alloc::Global;
use token_kind::{Blocker, Class, Hold, HoldList, Revoke};
use token_table::{HoldKey, put_item};

/// Revokes, each with the client that it goes to.
pub type RevokeList = Items<(ClientId, Revoke)>;

/// The Revokes for blockers, by what was asked before.
pub fn revokes(asked: &AskedMap, blockers: &[Blocker]) -> Result<RevokeList, Oom>
    ensures { IfOk result (λ revokes. revokes ≡ revokes_of asked.now.entries blockers.now) }
{
    let alloc = *asked.allocator();
    let now = asked_now(asked, blockers)?;
    let owners = owners(alloc, blockers)?;
    let revokes = revokes_to(asked, &now, owners.as_slice())?;
    Ok(revokes)
}

/// The Revokes to these clients, by what was asked before and is asked now.
fn revokes_to(asked: &AskedMap, now: &AskedMap, owners: &[Owner]) -> Result<RevokeList, Oom>
    ensures { IfOk result (λ revokes. revokes ≡ filter_map (revoke_of (asked_at asked.now.entries) (now_at asked.now.entries now.now.entries)) owners.now) }
{
    let mut revokes = Items::new(*asked.allocator());
    for owner in owners {
        let revoke = revoke(asked, now, *owner)?;
        put_item(&mut revokes, revoke)?;
    }
    Ok(revokes)
}

/// What is asked of the holds of blockers, once all of them are asked.
fn asked_now(asked: &AskedMap, blockers: &[Blocker]) -> Result<AskedMap, Oom>
    ensures { IfOk result (λ now. (q : HoldKey) → now_at asked.now.entries now.entries q ≡ asked_after asked.now.entries blockers.now q) }
{
    let mut now = IndexMap::with_capacity(*asked.allocator(), blockers.len())?;
    for b in blockers {
        ask_over(&mut now, asked, *b)?;
    }
    Ok(now)
}

/// Asks for a blocker too, over what was asked before.
fn ask_over(now: &mut AskedMap, asked: &AskedMap, b: Blocker) -> Result<(), Oom>
    ensures { OnOk result ((q : HoldKey) → now_at asked.now.entries now.new.entries q ≡ asked_with q (now_at asked.now.entries now.old.entries q) b) }
{
    if !is_open(b.class) {
        let key = key_of(b);
        let mode = lower_asked(now_at(asked, now, key), b.asked);
        put(now, key, mode)?;
    }
    Ok(())
}

/// What is asked of a hold now, or else was asked before.
fn now_at(asked: &AskedMap, now: &AskedMap, key: HoldKey) -> Option<Hold>
    ensures { result ≡ now_at asked.now.entries now.now.entries key }
{
    match asked_at(now, key) {
        Some(mode) => Some(mode),
        None => asked_at(asked, key),
    }
}

/// The clients and inodes of blockers, each once, in the order in which they first stand.
fn owners(alloc: Global, blockers: &[Blocker]) -> Result<IndexSet<Owner>, Oom>
    ensures { IfOk result (λ set. set.keys ≡ owners blockers.now) }
{
    let mut owners = IndexSet::with_capacity(alloc, 16)?;
    for b in blockers {
        owners.insert(owner_of(*b))?;
    }
    Ok(owners)
}

fn owner_of(b: Blocker) -> Owner
    ensures { result ≡ owner_of b }
{
    Owner {
        client: b.client,
        ino: b.ino,
    }
}

/// The Revoke to a client of an inode, if there is anything new to ask.
fn revoke(asked: &AskedMap, now: &AskedMap, owner: Owner) -> Result<Option<(ClientId, Revoke)>, Oom>
    ensures { IfOk result (λ revoke. revoke ≡ revoke_of (asked_at asked.now.entries) (now_at asked.now.entries now.now.entries) owner) }
{
    let items = items(asked, now, owner)?;
    if items.is_empty() {
        return Ok(None);
    }
    let revoke = Revoke {
        ino: owner.ino,
        items,
    };
    Ok(Some((owner.client, revoke)))
}

/// What there is to ask of a client on an inode, by rising class.
fn items(asked: &AskedMap, now: &AskedMap, owner: Owner) -> Result<HoldList, Oom>
    ensures { IfOk result (λ items. items ≡ items_of (asked_at asked.now.entries) (now_at asked.now.entries now.now.entries) owner) }
{
    let mut items = HoldList::new(*asked.allocator());
    put_item(&mut items, item(asked, now, owner, Class::Names))?;
    put_item(&mut items, item(asked, now, owner, Class::Data))?;
    put_item(&mut items, item(asked, now, owner, Class::Attr))?;
    Ok(items)
}

/// What there is to ask of a client's hold in a class: where less may be kept than before.
fn item(asked: &AskedMap, now: &AskedMap, owner: Owner, class: Class) -> Option<(Class, Hold)>
    ensures { let key = key_of owner.client owner.ino «class» in result ≡ item_of «class» (asked_at asked.now.entries key) (now_at asked.now.entries now.now.entries key) }
{
    let key = HoldKey {
        client: owner.client,
        ino: owner.ino,
        class,
    };
    match (asked_at(asked, key), now_at(asked, now, key)) {
        (_, None) => None,
        (None, Some(mode)) => Some((class, mode)),
        (Some(before), Some(mode)) => lowered_item(class, before, mode),
    }
}

fn lowered_item(class: Class, before: Hold, mode: Hold) -> Option<(Class, Hold)>
    ensures { result ≡ item_of «class» (Some before) (Some mode) }
{
    if before.is_above(mode) {
        Some((class, mode))
    } else {
        None
    }
}
