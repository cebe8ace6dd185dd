ghost use Rattle.std.specs.Prelude.{List, ℕ};
ghost use Rattle.cal_base.specs.declared.identity.Ino.{Ino};
ghost use Rattle.tree_law.specs.Legal.{IsLegal, tree_of};
ghost use Rattle.tree_law.specs.declared.entry.Entry.{Entry};
ghost use Rattle.tree_facts.specs.OneName.{IsSameName, IsTaken, StandsFor};

/// In the tree of a legal history each name of a directory stands for a number of 1 to 511 at which
/// something stands, and no inode has two names: the root has none, and every other has at most one.
pub fn an_inode_has_one_name()
    ensures taken { (history : List Entry) (directory ino : Ino) (name : List ℕ) → IsLegal history → StandsFor (tree_of history) directory name ino → IsTaken (tree_of history) ino }
    ensures one { (history : List Entry) (directory other ino : Ino) (name goal : List ℕ) → IsLegal history → StandsFor (tree_of history) directory name ino → StandsFor (tree_of history) other goal ino → IsSameName directory other name goal }
{}
