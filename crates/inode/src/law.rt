ghost use Rattle.std.specs.Prelude.{◌≡◌, ◌<◌, ◌^◌, ℕ, List};
ghost use Rattle.inode.specs.declared.inode.Inode.{Inode};
ghost use Rattle.inode.specs.Inode.{SpellsInode};

/// A sector spells one inode, and an inode has one spelling.
pub fn one_inode()
    ensures read { (sector : List ℕ) (a b : Inode) → SpellsInode sector a → SpellsInode sector b → a ≡ b }
    ensures spelled { (a b : List ℕ) (inode : Inode) → SpellsInode a inode → SpellsInode b inode → a ≡ b }
{}
