ghost use Rattle.std.specs.Prelude.{◌≡◌, ℕ, true, List};
ghost use Rattle.cal_base.specs.declared.identity.ClientId.{ClientId};
ghost use Rattle.tree_law.specs.Answer.{answer};
ghost use Rattle.tree_law.specs.Legal.{tree_of};
ghost use Rattle.tree_law.specs.Needs.{needs_of_want, touches};
ghost use Rattle.tree_law.specs.Resolve.{resolved};
ghost use Rattle.tree_law.specs.declared.call.Call.{Call};
ghost use Rattle.tree_law.specs.declared.entry.Entry.{Entry};
ghost use Rattle.tree_law.specs.declared.request.Want.{Want};
ghost use Rattle.tree_law.specs.Change.{is_change};
ghost use Rattle.volume.specs.Volume.{Volume};
ghost use Rattle.volume_plan.specs.Leads.{Mounted};
ghost use Rattle.volume_plan.specs.Shown.{shown};

/// The tree that a volume shows resolves as the tree of the history that it stands for: each path ends at
/// the same inode or is refused alike, a change is answered alike and touches the same, and what a client
/// wants needs the same tokens. The bytes, descriptors and unflushed writes, of which a volume shows
/// nothing, have no part in that.
pub fn a_volume_shows_its_tree()
    ensures resolved { (sectors : List (List ℕ)) (v : Volume) (history : List Entry) (path : List (List ℕ)) → Mounted sectors v history → resolved (shown v) path ≡ resolved (tree_of history) path }
    ensures answered { (sectors : List (List ℕ)) (v : Volume) (history : List Entry) (client : ClientId) (call : Call) → Mounted sectors v history → is_change call ≡ true → answer (shown v) client call ≡ answer (tree_of history) client call }
    ensures touched { (sectors : List (List ℕ)) (v : Volume) (history : List Entry) (call : Call) → Mounted sectors v history → touches (shown v) call ≡ touches (tree_of history) call }
    ensures needed { (sectors : List (List ℕ)) (v : Volume) (history : List Entry) (want : Want) → Mounted sectors v history → needs_of_want (shown v) want ≡ needs_of_want (tree_of history) want }
{}
