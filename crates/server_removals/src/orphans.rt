ghost use Rattle.std.specs.Prelude.{◌≡◌, ◌<◌, ◌≤◌, ◌+◌, ◌∷◌, [], ℕ, Bool, true, false, IsTrue, IfSome, OnOk, Some, None};
ghost use Rattle.cal_base.specs.Limits as limits;
ghost use Rattle.image.specs.Image.{is_orphan};
ghost use Rattle.message.specs.declared.message.Message.{Message};
ghost use Rattle.message.specs.declared.message.Message.TheVariants.{Revoke as AsksBack};
ghost use Rattle.token_kind.specs.declared.«class».Class.TheVariants.{Attr, Data};
ghost use Rattle.token_kind.specs.declared.revoke.Revoke.{Revoke};
ghost use Rattle.token_table.specs.Blockers.{touchers_of};
ghost use Rattle.volume_edit.specs.Edit.{inode_at};
ghost use Rattle.volume_names.specs.Named.{AreNamed};
ghost use Rattle.cluster_law.specs.Asking.{deserted, holders_of, next_revoke, was_told};
ghost use Rattle.cluster_law.specs.Removing.{HasDone, due, has_removed};
ghost use Rattle.cluster_law.specs.ServerRules.{DealsWithOrphan, FreesOrAsks, IsReapOf, Occasion};
ghost use Rattle.cluster_law.specs.ServerState.{ServerState, is_admitted};
ghost use Rattle.server_draft.specs.Acts.{acts_of, told_to};
ghost use Rattle.server_draft.specs.Draft.{Follows, Grows, reached};
ghost use Rattle.server_removals.specs.Removals.{LooksAtOrphans, at_desk};

use crate::holders::is_held_by_some;
use cal_base::{CLIENTS, Ino, Items, Oom};
use image::{EditPlan, Image};
use server_desk::Desk;
use server_draft::{Commit, Deed, Draft};
use std::alloc::Global;
use token_kind::{Blocker, Class};

/// Deals with the least file without a name that nobody has open, if there is one: asks for all holds of its bytes
/// and its size, or, where there is none, frees it in one commit. It is the first of a step's acts, and done in a
/// tick of an admitted server that has nobody to purge.
pub fn deal_with_orphan(alloc: Global, draft: &mut Draft) -> Result<(), Oom>
    ensures follows { OnOk result ((view : ℕ) (o : Occasion) (start : ServerState) → Follows view o start draft.old → IsTrue o.tick → IsTrue (is_admitted (reached view start draft.old))
        → due o.gone (reached view start draft.old) ≡ None → draft.old.acts ≡ [] → Follows view o start draft.new) }
    ensures deals { OnOk result ((view : ℕ) (o : Occasion) (start : ServerState) → Follows view o start draft.old → draft.old.acts ≡ []
        → DealsWithOrphan start (reached view start draft.new) (acts_of view draft.new.acts) (deserted start)) }
    ensures standings { OnOk result (draft.new.desk.collecting ≡ draft.old.desk.collecting) }
    ensures requests { OnOk result (draft.new.desk.requests ≡ draft.old.desk.requests) }
    ensures told { OnOk result ((view client : ℕ) (test : Message → Bool) → ((revoke : Revoke) → test (AsksBack revoke) ≡ false) → was_told client test (acts_of view draft.new.acts) ≡ was_told client test (acts_of view draft.old.acts)) }
    ensures few { OnOk result ((to : ℕ) → told_to to draft.new.acts ≤ told_to to draft.old.acts + limits.inodes) }
    ensures names { OnOk result (AreNamed draft.old.image → AreNamed draft.new.image) }
    ensures grows { OnOk result (Grows draft.old.acts draft.new.acts) }
{
    match least_deserted(&draft.desk, &draft.image) {
        Some(ino) => {
            free_or_ask(alloc, draft, ino)?;
            Ok(())
        }
        None => Ok(()),
    }
}

/// The least file without a name that nobody has open. It takes no memory.
pub(crate) fn least_deserted(desk: &Desk, image: &Image) -> Option<Ino>
    ensures value { result ≡ deserted (at_desk desk.now image.now) }
    ensures bound { IfSome result (λ ino. ino.0 < limits.inodes) }
    ensures orphan { IfSome result (λ ino. is_orphan (inode_at image.now.inodes ino.0) ≡ true) }
{
    let mut from = Ino(0);
    while let Some(ino) = image.least_orphan(from) {
        if !is_held_by_some(desk.table(), ino, Class::Open) {
            return Some(ino);
        }
        from = Ino(ino.0 + 1);
    }
    None
}

/// Frees a file that nobody uses, or asks for the holds of its bytes and its size.
fn free_or_ask(alloc: Global, draft: &mut Draft, ino: Ino) -> Result<(), Oom>
    requires inode { ino.0 < limits.inodes }
    requires orphan { is_orphan (inode_at draft.old.image.inodes ino.0) ≡ true }
    ensures follows { OnOk result ((view : ℕ) (o : Occasion) (start : ServerState) → Follows view o start draft.old → LooksAtOrphans o (reached view start draft.old) → deserted (reached view start draft.old) ≡ Some ino
        → draft.old.acts ≡ [] → Follows view o start draft.new) }
    ensures deals { OnOk result ((view : ℕ) (o : Occasion) (start : ServerState) → Follows view o start draft.old → draft.old.acts ≡ []
        → FreesOrAsks start (reached view start draft.new) (acts_of view draft.new.acts) ino (holders_of start (Some ino))) }
    ensures standings { OnOk result (draft.new.desk.collecting ≡ draft.old.desk.collecting) }
    ensures requests { OnOk result (draft.new.desk.requests ≡ draft.old.desk.requests) }
    ensures told { OnOk result ((view client : ℕ) (test : Message → Bool) → ((revoke : Revoke) → test (AsksBack revoke) ≡ false) → was_told client test (acts_of view draft.new.acts) ≡ was_told client test (acts_of view draft.old.acts)) }
    ensures few { OnOk result ((to : ℕ) → told_to to draft.new.acts ≤ told_to to draft.old.acts + limits.inodes) }
    ensures names { OnOk result (AreNamed draft.old.image → AreNamed draft.new.image) }
    ensures grows { OnOk result (Grows draft.old.acts draft.new.acts) }
{
    let holders = draft
        .desk
        .table()
        .touchers(&[(ino, Class::Data), (ino, Class::Attr)])?;
    if holders.is_empty() {
        reap(alloc, draft, ino)?;
        Ok(())
    } else {
        ask(draft, ino, holders.as_slice())?;
        Ok(())
    }
}

/// Frees a file that nobody uses, in one commit.
fn reap(alloc: Global, draft: &mut Draft, ino: Ino) -> Result<(), Oom>
    requires inode { ino.0 < limits.inodes }
    requires orphan { is_orphan (inode_at draft.old.image.inodes ino.0) ≡ true }
    ensures follows { OnOk result ((view : ℕ) (o : Occasion) (start : ServerState) → Follows view o start draft.old → LooksAtOrphans o (reached view start draft.old) → deserted (reached view start draft.old) ≡ Some ino
        → holders_of (reached view start draft.old) (Some ino) ≡ [] → has_removed (acts_of view draft.old.acts) ≡ false → Follows view o start draft.new) }
    ensures done { OnOk result ((view : ℕ) → HasDone (IsReapOf ino) (acts_of view draft.new.acts)) }
    ensures told { OnOk result ((view client : ℕ) (test : Message → Bool) → was_told client test (acts_of view draft.new.acts) ≡ was_told client test (acts_of view draft.old.acts)) }
    ensures few { OnOk result ((to : ℕ) → told_to to draft.new.acts ≡ told_to to draft.old.acts) }
    ensures names { OnOk result (AreNamed draft.old.image → AreNamed draft.new.image) }
    ensures grows { OnOk result (Grows draft.old.acts draft.new.acts) }
    ensures desk { OnOk result (draft.new.desk ≡ draft.old.desk) }
{
    prove!(draft.image.clients() <= CLIENTS);
    let EditPlan { edit, txn } = draft.image.plan_reap(alloc, ino)?;
    draft.commit(Commit {
        deed: Deed::Reaps(ino),
        lays: Items::new(alloc),
        edit,
        homes: txn,
    })?;
    Ok(())
}

/// Asks for all holds of the bytes and the size of a file that nobody has open.
fn ask(draft: &mut Draft, ino: Ino, holders: &[Blocker]) -> Result<(), Oom>
    requires inode { ino.0 < limits.inodes }
    requires holders { holders.now ≡ touchers_of draft.old.desk.collecting.table ((ino, Data) ∷ (ino, Attr) ∷ []) }
    ensures follows { OnOk result ((view : ℕ) (o : Occasion) (start : ServerState) → Follows view o start draft.old → LooksAtOrphans o (reached view start draft.old) → deserted (reached view start draft.old) ≡ Some ino
        → draft.old.acts ≡ [] → Follows view o start draft.new) }
    ensures asks { OnOk result ((view : ℕ) (o : Occasion) (start : ServerState) → Follows view o start draft.old → next_revoke (reached view start draft.new) (holders_of (reached view start draft.old) (Some ino)) ≡ None) }
    ensures desk { OnOk result (draft.new.desk ≡ record draft.old.desk { asked = draft.new.desk.asked }) }
    ensures told { OnOk result ((view client : ℕ) (test : Message → Bool) → ((revoke : Revoke) → test (AsksBack revoke) ≡ false) → was_told client test (acts_of view draft.new.acts) ≡ was_told client test (acts_of view draft.old.acts)) }
    ensures image { OnOk result (draft.new.image ≡ draft.old.image) }
    ensures few { OnOk result ((to : ℕ) → told_to to draft.new.acts ≤ told_to to draft.old.acts + limits.inodes) }
    ensures grows { OnOk result (Grows draft.old.acts draft.new.acts) }
{
    draft.revoke(holders)?;
    Ok(())
}
