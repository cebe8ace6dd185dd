ghost use Rattle.std.specs.Prelude.{◌≡◌, ◌≢◌, ◌⊎◌, ℕ, List, Option, Some, false};
ghost use Rattle.cal_base.specs.declared.directory_entry.EntryKind.TheVariants.{File};
ghost use Rattle.cal_base.specs.declared.identity.ClientId.{ClientId};
ghost use Rattle.cal_base.specs.declared.identity.Ino.{Ino};
ghost use Rattle.tree_law.specs.Tree.{Tree, descriptor_at, is_purged, node_at, table_of, writer_of};
ghost use Rattle.tree_law.specs.PartOf.{IsKind};
ghost use Rattle.tree_law.specs.Legal.{IsLegal, IsNext, after, tree_of};
ghost use Rattle.tree_law.specs.declared.call.Call.{Call};
ghost use Rattle.tree_law.specs.declared.descriptor.Descriptor.{Descriptor};
ghost use Rattle.tree_law.specs.declared.entry.Entry.{Entry};
ghost use Rattle.tree_law.specs.declared.entry.Entry.TheVariants.{Call as Called, Flush};
ghost use Rattle.tree_law.specs.declared.reply.Reply.{Reply};
ghost use Rattle.tree_facts.specs.Standing.{EndsWriting, IsWithin};

/// In the tree of a legal history no file has more bytes than a file may have, present ones or ones
/// that last; the client whose writes to a file aren't flushed isn't purged; and each descriptor is of a
/// file.
pub fn a_legal_tree_is_sound()
    ensures within { (history : List Entry) (ino : Ino) → IsLegal history → IsWithin (node_at (tree_of history) ino) }
    ensures writers { (history : List Entry) (ino : Ino) (client : ClientId) → IsLegal history → writer_of (node_at (tree_of history) ino) ≡ Some client → is_purged (tree_of history) client ≡ false }
    ensures descriptors { (history : List Entry) (client : ClientId) (fd : ℕ) (descriptor : Descriptor) → IsLegal history → descriptor_at (tree_of history) client fd ≡ Some descriptor → IsKind (tree_of history) descriptor.ino File }
{}

/// Unflushed writes to a file end by their writer's flush of it, or by the writer's purge: any other
/// entry that the tree allows leaves the file its writer.
pub fn a_writer_goes_by_its_flush_or_purge()
    ensures { (tree : Tree) (entry : Entry) (client : ClientId) (ino : Ino) → IsNext tree entry → writer_of (node_at tree ino) ≡ Some client
        → (writer_of (node_at (after tree entry) ino) ≡ Some client) ⊎ EndsWriting entry client ino }
{}

/// A call of one client leaves the descriptors of all others, and a flush those of all.
pub fn a_call_leaves_other_clients()
    ensures call { (tree : Tree) (client other : ClientId) (number : ℕ) (call : Call) (reply : Reply) (new : Option Ino) → other.0 ≢ client.0 → table_of (after tree (Called client number call reply new)) other ≡ table_of tree other }
    ensures flush { (tree : Tree) (client other : ClientId) (ino : Ino) → table_of (after tree (Flush client ino)) other ≡ table_of tree other }
{}
