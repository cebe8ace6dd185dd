ghost use Rattle.std.specs.Prelude.{◌≡◌, ◌≤◌, List, Ok, ℕ};
ghost use Rattle.cal_base.specs.declared.identity.ClientId.{ClientId};
ghost use Rattle.cal_base.specs.declared.identity.Ino.{Ino};
ghost use Rattle.tree_law.specs.Legal.{tree_of};
ghost use Rattle.tree_law.specs.Rename.{move_of};
ghost use Rattle.tree_law.specs.declared.call.Call.TheVariants.{Rename};
ghost use Rattle.tree_law.specs.declared.entry.Entry.{Entry};
ghost use Rattle.tree_law.specs.declared.rename.Move.{Move};
ghost use Rattle.tree_law.specs.declared.reply.Reply.TheVariants.{Done};
ghost use Rattle.volume.specs.Volume.{Volume};
ghost use Rattle.volume_plan.specs.Leads.{IsAsked, Mounted};
ghost use Rattle.volume_plan.specs.Planned.{PlanLeads};
ghost use Rattle.volume_plan.specs.Plans.{free_count, plan};

/// A `rename` that the tree doesn't refuse is done where there are as many free blocks as its plan needs.
/// With the homes of the plan's edit in place the sectors then stand for the history with the rename, in
/// one directory or into another one, in place of a file or of an empty directory or of nothing.
pub fn a_rename_stands()
    ensures done { (sectors : List (List ℕ)) (v : Volume) (history : List Entry) (client : ClientId) (number : ℕ) (path goal : List (List ℕ)) (opened : List Ino) (move : Move) → Mounted sectors v history
        → move_of (tree_of history) path goal ≡ Ok move → (plan v client number (Rename path goal) opened).needed ≤ free_count v → (plan v client number (Rename path goal) opened).reply ≡ Done }
    ensures stands { (sectors : List (List ℕ)) (v : Volume) (history : List Entry) (client : ClientId) (number : ℕ) (path goal : List (List ℕ)) (opened : List Ino) → Mounted sectors v history → IsAsked history client number (Rename path goal) opened
        → (plan v client number (Rename path goal) opened).reply ≡ Done → PlanLeads sectors v history client number (Rename path goal) opened }
{}
