ghost use Rattle.std.specs.Prelude.{◌≡◌, ◌≢◌, ◌⊎◌, ◌<◌, ◌≤◌, ℕ, List, length, slice_index, Option, None, false, IfSome};
ghost use Rattle.cal_base.specs.declared.identity.ClientId.{ClientId};
ghost use Rattle.cal_base.specs.declared.identity.Ino.{Ino};
ghost use Rattle.file_bytes.specs.Bytes.{read_at, written};
ghost use Rattle.tree_law.specs.Tree.{Tree, descriptor_at, node_at, table_of};
ghost use Rattle.tree_law.specs.Answer.{answer};
ghost use Rattle.tree_law.specs.Idle.{is_idle};
ghost use Rattle.tree_law.specs.After.{purged_node, unlinked};
ghost use Rattle.tree_law.specs.Legal.{IsNextCall, IsWantOfRoom, after, tree_of};
ghost use Rattle.tree_law.specs.Needs.{needs};
ghost use Rattle.tree_law.specs.Part.{Part, answer_in, needs_in};
ghost use Rattle.tree_law.specs.PartOf.{HasAllNames, HasNeeds, IsPartOf, LacksNames};
ghost use Rattle.tree_law.specs.declared.call.Call.{Call};
ghost use Rattle.tree_law.specs.declared.call.Call.TheVariants.{Read};
ghost use Rattle.tree_law.specs.declared.entry.Entry.{Entry};
ghost use Rattle.tree_law.specs.declared.reply.Reply.{Reply};
ghost use Rattle.tree_law.specs.declared.entry.Entry.TheVariants.{Purge};

/// A part of a tree answers as the whole: a reply that it gives by itself is the tree's own, and where
/// it has all that a call needs, the needs that it shows are the tree's.
pub fn a_part_answers_as_the_whole()
    ensures answers { (tree : Tree) (client : ClientId) (part : Part) (call : Call) → IsPartOf tree client part → IfSome (answer_in part call) (λ reply. reply ≡ answer tree client call) }
    ensures needs { (tree : Tree) (client : ClientId) (part : Part) (call : Call) → IsPartOf tree client part → HasNeeds part call → needs_in part call ≡ needs tree client call }
{}

/// A part of a tree asks as the whole where it has the entries of each directory of which a call needs
/// Names, whatever it has of bytes and sizes; else it shows a need of Names of a directory that it lacks,
/// which the whole tree needs too.
pub fn a_part_with_names_asks_as_the_whole()
    ensures same { (tree : Tree) (client : ClientId) (part : Part) (call : Call) → IsPartOf tree client part → HasAllNames part call → needs_in part call ≡ needs tree client call }
    ensures lacks { (tree : Tree) (client : ClientId) (part : Part) (call : Call) → IsPartOf tree client part → (needs_in part call ≡ needs tree client call) ⊎ LacksNames tree client part call }
{}

/// No file without name, without descriptor and without writer stands in the tree of a history.
pub fn no_file_is_idle()
    ensures { (history : List Entry) (number : ℕ) → number < 512 → is_idle (tree_of history) number ≡ false }
{}

/// A purge takes away exactly that client's unflushed writes and descriptors: each file goes back to
/// what lasts of it if the client was its writer, and is dropped if it is idle then; the descriptors of
/// the others stay.
pub fn a_purge_takes_one_client()
    ensures nodes { (tree : Tree) (client : ClientId) (ino : Ino) → ino.0 < 512 → node_at (after tree (Purge client)) ino ≡ purged_node tree client ino }
    ensures descriptors { (tree : Tree) (client : ClientId) (fd : ℕ) → descriptor_at (after tree (Purge client)) client fd ≡ None }
    ensures others { (tree : Tree) (client other : ClientId) → other.0 ≢ client.0 → table_of (after tree (Purge client)) other ≡ table_of tree other }
{}

/// The tree determines a call's reply, but for want of an inode or of blocks.
pub fn one_answer()
    ensures { (tree : Tree) (client : ClientId) (call : Call) (reply : Reply) (new : Option Ino) → IsNextCall tree client call reply new → ¬ (IsWantOfRoom tree client call reply) → reply ≡ answer tree client call }
{}

/// What was written is read back, and a gap before it reads as zeros.
pub fn a_write_is_read_back()
    ensures back { (contents : List ℕ) (offset : ℕ) (bytes : List ℕ) → read_at (written contents offset bytes) offset (length bytes) ≡ bytes }
    ensures gap { (contents : List ℕ) (offset : ℕ) (bytes : List ℕ) (i : ℕ) → length contents ≤ i → i < offset → slice_index (written contents offset bytes) i ≡ 0 }
{}

/// A file that is open still reads after it lost its name.
pub fn an_unlinked_file_still_reads()
    ensures { (tree : Tree) (client other : ClientId) (number : ℕ) (path : List (List ℕ)) (fd offset len : ℕ) → answer (unlinked tree client number path) other (Read fd offset len) ≡ answer tree other (Read fd offset len) }
{}
