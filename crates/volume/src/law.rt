ghost use Rattle.std.specs.Prelude.{◌≡◌, ℕ, List};
ghost use Rattle.volume.specs.Head.{SpellsHead};
ghost use Rattle.volume.specs.Volume.{AreSame, SpellsVolume, Volume};

/// A sector spells the head of one count of clients, and each count has one spelling.
pub fn one_head()
    ensures read { (sector : List ℕ) (a b : ℕ) → SpellsHead sector a → SpellsHead sector b → a ≡ b }
    ensures spelled { (a b : List ℕ) (clients : ℕ) → SpellsHead a clients → SpellsHead b clients → a ≡ b }
{}

/// Sectors spell one volume: one count of clients, one map, one list of slots and of inodes, and one
/// list of entries for each directory.
pub fn one_volume()
    ensures { (sectors : List (List ℕ)) (a b : Volume) → SpellsVolume sectors a → SpellsVolume sectors b → AreSame a b }
{}
