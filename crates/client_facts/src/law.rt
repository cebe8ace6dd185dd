ghost use Rattle.std.specs.Prelude.{◌≡◌, ◌≤◌, ◌<◌, ◌+◌, ℕ, true, Option, Some};
ghost use Rattle.cal_base.specs.Limits.{inodes};
ghost use Rattle.cal_base.specs.declared.identity.ClientId.{ClientId};
ghost use Rattle.cal_base.specs.declared.identity.Ino.{Ino};
ghost use Rattle.client_cache.specs.AfterAnswer.{after_answer};
ghost use Rattle.client_cache.specs.Changes.{after_flushed, after_lower, after_start, after_take, flush_numbered, new_flush};
ghost use Rattle.client_cache.specs.Follows.{Follows};
ghost use Rattle.client_cache.specs.IsKnown.{IsKnown};
ghost use Rattle.client_cache.specs.Known.{Known, inode_at, is_settled};
ghost use Rattle.client_facts.specs.Answers.{IsAnswered};
ghost use Rattle.client_facts.specs.Leaves.{LeavesHeld, LeavesOfHeld};
ghost use Rattle.client_facts.specs.Lowers.{MayLower};
ghost use Rattle.client_facts.specs.Takes.{MayTake};
ghost use Rattle.token_kind.specs.declared.«class».Class.{Class};
ghost use Rattle.token_kind.specs.declared.flush.Flush.{Flush};
ghost use Rattle.token_kind.specs.declared.grant_item.GrantItem.{GrantItem};
ghost use Rattle.token_kind.specs.declared.hold.Hold.{Hold};
ghost use Rattle.tree_law.specs.After.{after};
ghost use Rattle.tree_law.specs.Tree.{Tree};
ghost use Rattle.tree_law.specs.declared.call.Call.{Call};
ghost use Rattle.tree_law.specs.declared.entry.Entry.TheVariants.{Call as Called, Flush as Flushed};
ghost use Rattle.tree_law.specs.declared.reply.Reply.{Reply};

/// What a client knows follows the tree through what others do, where that leaves what the client holds.
pub fn what_others_do_is_followed()
    ensures { (tree next : Tree) (client : ClientId) (done : ℕ) (known : Known) → LeavesHeld tree next client done known → Follows tree client done known → Follows next client done known }
{}

/// It follows the tree on when a flush starts of a file of which something is unflushed, and no other
/// flush is outstanding.
pub fn a_flush_that_starts_is_followed()
    ensures { (tree : Tree) (client : ClientId) (done : ℕ) (known : Known) (ino : Ino) (leave_data leave_attr : Hold) → IsKnown known → ino.0 < inodes → is_settled known ino ≡ true → (inode_at known ino).file.unflushed ≡ true → done ≤ known.last_flush → Follows tree client done known → Follows tree client done (after_start known (new_flush known ino leave_data leave_attr)) }
{}

/// It follows the tree with the client's next flush when that comes to be in it.
pub fn a_flush_in_the_tree_is_followed()
    ensures { (tree : Tree) (client : ClientId) (done : ℕ) (known : Known) (flush : Flush) → IsKnown known → flush_numbered known flush.number ≡ Some flush → flush.number ≡ done + 1 → Follows tree client done known → Follows (after tree (Flushed client flush.ino)) client (done + 1) known }
{}

/// It follows the tree on when the client is told that a flush is done, which is in the tree, and leaves
/// nothing that isn't held.
pub fn a_flush_that_is_done_is_followed()
    ensures { (tree : Tree) (client : ClientId) (done : ℕ) (known : Known) (flush : Flush) → IsKnown known → flush_numbered known flush.number ≡ Some flush → flush.number ≤ done → LeavesOfHeld (inode_at known flush.ino) flush → Follows tree client done known → Follows tree client done (after_flushed known flush.number) }
{}

/// It follows the tree on when a hold is lowered of a file without an outstanding flush and, in Data and
/// Attr, without unflushed writes.
pub fn a_lowering_is_followed()
    ensures { (tree : Tree) (client : ClientId) (done : ℕ) (known : Known) (ino : Ino) (cls : Class) (to : Hold) → IsKnown known → ino.0 < inodes → is_settled known ino ≡ true → MayLower known ino cls → Follows tree client done known → Follows tree client done (after_lower known ino cls to) }
{}

/// It follows the tree on when an item of a grant is taken that brings what is the tree's, or nothing where
/// something is held. An item of Data or Attr comes while no flush of its file is under way.
pub fn a_taken_item_is_followed()
    ensures { (tree : Tree) (client : ClientId) (done : ℕ) (known : Known) (item : GrantItem) → IsKnown known → MayTake tree done known item → Follows tree client done known → Follows tree client done (after_take known item) }
{}

/// It follows the tree on when the client carries out a call by itself, one that is covered or a `close`,
/// which comes to be in the tree with the reply that the cache gives.
pub fn an_answered_call_is_followed()
    ensures { (tree : Tree) (client : ClientId) (done : ℕ) (known : Known) (number : ℕ) (call : Call) (reply : Reply) (new : Option Ino) → IsKnown known → IsAnswered known call reply → Follows tree client done known → Follows (after tree (Called client number call reply new)) client done (after_answer known call) }
{}
