ghost use Rattle.std.specs.Prelude.{◌≡◌, ◌≢◌, ℕ, true, false, List, Option, Some};
ghost use Rattle.cal_base.specs.declared.identity.ClientId.{ClientId};
ghost use Rattle.cal_base.specs.declared.identity.Ino.{Ino};
ghost use Rattle.tree_law.specs.Change.{is_change};
ghost use Rattle.tree_law.specs.Tree.{node_at};
ghost use Rattle.tree_law.specs.Legal.{IsLegal, IsNext, after, tree_of};
ghost use Rattle.tree_law.specs.declared.call.Call.{Call};
ghost use Rattle.tree_law.specs.declared.entry.Entry.{Entry};
ghost use Rattle.tree_law.specs.declared.entry.Entry.TheVariants.{Call as Called, Flush};
ghost use Rattle.tree_law.specs.declared.reply.Reply.{Reply};
ghost use Rattle.tree_touches.specs.Touching.{IsClassUntouched, IsOfFile, IsUntouched, ShowsNode};

/// After a change that the tree of a legal history allows next, carried out or refused, an inode that
/// is in no class among what the change touches, and that the change didn't make, has the node that it
/// had: the same entries, or the same bytes, lasting bytes and writer, or nothing as before. Where
/// something stands, one class tells that: Names of a directory, Data or Attr of a file.
pub fn an_untouched_inode_keeps_its_node()
    ensures class { (history : List Entry) (client : ClientId) (number : ℕ) (call : Call) (reply : Reply) (new : Option Ino) (ino : Ino) (class : ℕ)
        → IsLegal history → IsNext (tree_of history) (Called client number call reply new) → is_change call ≡ true → ShowsNode (node_at (tree_of history) ino) class → IsClassUntouched (tree_of history) call ino class
        → node_at (after (tree_of history) (Called client number call reply new)) ino ≡ node_at (tree_of history) ino }
    ensures all { (history : List Entry) (client : ClientId) (number : ℕ) (call : Call) (reply : Reply) (new : Option Ino) (ino : Ino)
        → IsLegal history → IsNext (tree_of history) (Called client number call reply new) → is_change call ≡ true → IsUntouched (tree_of history) call ino → new ≢ Some ino
        → node_at (after (tree_of history) (Called client number call reply new)) ino ≡ node_at (tree_of history) ino }
{}

/// After a call that is no change, whatever its reply, each inode has the node that it had, but for
/// the file whose bytes the call alters or whose descriptor it closes: a closed file may be dropped.
/// A flush leaves all but its file.
pub fn a_call_on_a_file_leaves_all_others()
    ensures call { (history : List Entry) (client : ClientId) (number : ℕ) (call : Call) (reply : Reply) (new : Option Ino) (ino : Ino) → is_change call ≡ false → ¬ (IsOfFile (tree_of history) client call ino)
        → node_at (after (tree_of history) (Called client number call reply new)) ino ≡ node_at (tree_of history) ino }
    ensures flush { (history : List Entry) (client : ClientId) (file ino : Ino) → ino.0 ≢ file.0 → node_at (after (tree_of history) (Flush client file)) ino ≡ node_at (tree_of history) ino }
{}
