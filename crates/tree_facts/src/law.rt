ghost use Rattle.std.specs.Prelude.{◌≡◌, ◌≢◌, ◌<◌, ◌≤◌, ℕ, List, [], ◌∷◌, length, Option, Some, None, Ok, Err, IfSome};
ghost use Rattle.cal_base.specs.declared.directory_entry.EntryKind.TheVariants.{File};
ghost use Rattle.cal_base.specs.declared.identity.ClientId.{ClientId};
ghost use Rattle.cal_base.specs.declared.identity.Ino.{Ino};
ghost use Rattle.tree_law.specs.Tree.{Tree, contents_of, node_at, table_of, writer_of};
ghost use Rattle.tree_law.specs.Descriptors.{readable};
ghost use Rattle.tree_law.specs.Resolve.{file_named, last_of, parent_of};
ghost use Rattle.tree_law.specs.Kept.{kept_tree};
ghost use Rattle.tree_law.specs.PartOf.{IsKind};
ghost use Rattle.tree_law.specs.Answer.{answer};
ghost use Rattle.tree_law.specs.Legal.{IsLegal, after, tree_of};
ghost use Rattle.tree_law.specs.declared.call.Call.{Call};
ghost use Rattle.tree_law.specs.declared.call.Call.TheVariants.{Read, Rename, Write};
ghost use Rattle.tree_law.specs.declared.entry.Entry.{Entry};
ghost use Rattle.tree_law.specs.declared.entry.Entry.TheVariants.{Call as Called, Flush, Purge};
ghost use Rattle.tree_law.specs.declared.reply.Reply.{Reply};
ghost use Rattle.tree_law.specs.declared.reply.Reply.TheVariants.{Bytes, Count, Done};
ghost use Rattle.tree_law.specs.declared.reply.Why.TheVariants.{NoEnt};
ghost use Rattle.tree_facts.specs.Lasting.{LastsAsBefore, LastsWhole, kept_of, last_flushed};
ghost use Rattle.tree_facts.specs.Writing.{IsWrite};

/// Only a flush makes bytes last. A call, whatever its reply, leaves what lasts of each file that it
/// doesn't make; a flush makes the present bytes of its file last, and those of no other; a purge leaves
/// what lasts of all. So what lasts of a file of a legal history is what it held at its last flush, and
/// nothing where there was none since it was made.
pub fn kept_is_what_flushes_leave()
    ensures call { (tree : Tree) (client : ClientId) (number : ℕ) (call : Call) (reply : Reply) (new : Option Ino) (ino : Ino) → new ≢ Some ino → LastsAsBefore (node_at tree ino) (node_at (after tree (Called client number call reply new)) ino) }
    ensures flush { (tree : Tree) (client : ClientId) (ino : Ino) → IfSome (kept_of (node_at (after tree (Flush client ino)) ino)) (λ kept. kept ≡ contents_of (node_at tree ino)) }
    ensures others { (tree : Tree) (client : ClientId) (file ino : Ino) → ino.0 ≢ file.0 → LastsAsBefore (node_at tree ino) (node_at (after tree (Flush client file)) ino) }
    ensures purge { (tree : Tree) (client : ClientId) (ino : Ino) → LastsAsBefore (node_at tree ino) (node_at (after tree (Purge client)) ino) }
    ensures history { (history : List Entry) (ino : Ino) → IsLegal history → IfSome (kept_of (node_at (tree_of history) ino)) (λ kept. kept ≡ last_flushed history ino) }
{}

/// A file in which nobody has unflushed writes lasts as it is; in a legal history it holds what it held
/// at its last flush. So where nobody has unflushed writes, what lasts is the whole tree.
pub fn a_flushed_file_lasts_as_it_is()
    ensures whole { (history : List Entry) (ino : Ino) → LastsWhole (node_at (tree_of history) ino) }
    ensures bytes { (history : List Entry) (ino : Ino) → IsLegal history → IsKind (tree_of history) ino File → writer_of (node_at (tree_of history) ino) ≡ None → contents_of (node_at (tree_of history) ino) ≡ last_flushed history ino }
    ensures all { (history : List Entry) → ((ino : Ino) → writer_of (node_at (tree_of history) ino) ≡ None) → kept_tree (tree_of history) ≡ tree_of history }
{}

/// After a write that is answered with its count, whoever has the file open for reading reads the bytes
/// that were written; and each byte of a gap between the former end and the offset reads as zero.
pub fn a_read_after_a_write()
    ensures back { (tree : Tree) (client reader : ClientId) (number fd other offset : ℕ) (bytes : List ℕ) (ino : Ino) → IsWrite tree client fd offset bytes ino → readable (table_of tree reader) other ≡ Ok ino → answer (after tree (Called client number (Write fd offset bytes) (Count (length bytes)) None)) reader (Read other offset (length bytes)) ≡ Bytes bytes }
    ensures gap { (tree : Tree) (client reader : ClientId) (number fd other offset place : ℕ) (bytes : List ℕ) (ino : Ino) → IsWrite tree client fd offset bytes ino → readable (table_of tree reader) other ≡ Ok ino → length (contents_of (node_at tree ino)) ≤ place → place < offset → answer (after tree (Called client number (Write fd offset bytes) (Count (length bytes)) None)) reader (Read other place 1) ≡ Bytes (0 ∷ []) }
{}

/// A rename of a file that is carried out leaves the file as it was, its present bytes, those that last
/// and its writer, and every client's descriptors. The goal then names it, and the path names nothing
/// where the two are not one entry.
pub fn a_renamed_file_keeps_its_contents()
    ensures file { (tree : Tree) (client : ClientId) (number : ℕ) (path goal : List (List ℕ)) (ino : Ino) → file_named tree path ≡ Ok ino → answer tree client (Rename path goal) ≡ Done → node_at (after tree (Called client number (Rename path goal) Done None)) ino ≡ node_at tree ino }
    ensures goal { (tree : Tree) (client : ClientId) (number : ℕ) (path goal : List (List ℕ)) (ino : Ino) → file_named tree path ≡ Ok ino → answer tree client (Rename path goal) ≡ Done → file_named (after tree (Called client number (Rename path goal) Done None)) goal ≡ Ok ino }
    ensures path { (tree : Tree) (client : ClientId) (number : ℕ) (path goal : List (List ℕ)) (ino : Ino) → file_named tree path ≡ Ok ino → answer tree client (Rename path goal) ≡ Done → (parent_of tree path ≡ parent_of tree goal → last_of path ≢ last_of goal) → file_named (after tree (Called client number (Rename path goal) Done None)) path ≡ Err NoEnt }
    ensures descriptors { (tree : Tree) (client other : ClientId) (number : ℕ) (path goal : List (List ℕ)) → table_of (after tree (Called client number (Rename path goal) Done None)) other ≡ table_of tree other }
{}
