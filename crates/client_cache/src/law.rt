ghost use Rattle.std.specs.Prelude.{◌≡◌, ◌⊎◌, ℕ, IfSome};
ghost use Rattle.cal_base.specs.declared.identity.ClientId.{ClientId};
ghost use Rattle.tree_law.specs.Answer.{answer};
ghost use Rattle.tree_law.specs.Needs.{needs};
ghost use Rattle.tree_law.specs.Part.{answer_in, needs_in};
ghost use Rattle.tree_law.specs.PartOf.{HasAllNames, LacksNames};
ghost use Rattle.tree_law.specs.Tree.{Tree};
ghost use Rattle.tree_law.specs.declared.call.Call.{Call};
ghost use Rattle.client_cache.specs.Agrees.{Agrees};
ghost use Rattle.client_cache.specs.Covered.{covered, covered_by};
ghost use Rattle.client_cache.specs.Follows.{Follows};
ghost use Rattle.client_cache.specs.Known.{Known, part_of};

/// What a client knows of a tree answers as the tree. Where what is held is the tree's, but of files
/// with an outstanding flush, a call is covered exactly where the tree's own needs of it are met, and
/// the reply that is given by what is held is the tree's.
pub fn a_cache_answers_as_the_tree()
    ensures covered { (tree : Tree) (client : ClientId) (known : Known) (call : Call) → Agrees tree client known → covered known call ≡ covered_by known (needs tree client call) call }
    ensures answers { (tree : Tree) (client : ClientId) (known : Known) (call : Call) → Agrees tree client known → IfSome (answer_in (part_of known) call) (λ reply. reply ≡ answer tree client call) }
{}

/// What a client knows that follows a tree, through its own calls and flushes and through what others do,
/// agrees with it where no flush is outstanding, and so answers as the tree.
pub fn what_follows_agrees()
    ensures { (tree : Tree) (client : ClientId) (done : ℕ) (known : Known) → Follows tree client done known → Agrees tree client known }
{}

/// A client asks as the tree. Where what is held is the tree's, and it holds Names of each directory of which
/// a call needs that, the needs that it sees are those of the tree, also of a file under flush or without its
/// size; else a Names that the tree needs too isn't held.
pub fn a_cache_asks_as_the_tree()
    ensures same { (tree : Tree) (client : ClientId) (known : Known) (call : Call) → Agrees tree client known → HasAllNames (part_of known) call → needs_in (part_of known) call ≡ needs tree client call }
    ensures lacks { (tree : Tree) (client : ClientId) (known : Known) (call : Call) → Agrees tree client known → (needs_in (part_of known) call ≡ needs tree client call) ⊎ LacksNames tree client (part_of known) call }
{}
